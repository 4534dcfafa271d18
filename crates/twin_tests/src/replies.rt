// What replies tell.
use calls::answer::Answer;
use calls::fault::Fault;
use std::test::Fail;
use tlb::entry::Entry;
use tlb::page::DataPage;
use twin::look::Seen;
use twin::request::Reply;

// A reply that refuses.
pub(crate) fn refused(fault: Fault) -> Reply {
    Reply::Answer(Answer::Refused(fault))
}

// The data entry that a reply tells of.
pub(crate) fn seen(reply: Reply) -> Result<Entry<DataPage>, Fail> {
    match reply {
        Reply::Saw(Seen::Data(entry)) => Ok(entry),
        _ => Err(Fail::new("no data entry")),
    }
}
