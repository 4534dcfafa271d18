// How a call is answered.
ghost use Rattle.std.specs.Prelude.{◌≡◌, Some};
ghost use Rattle.calls.specs.Answer.{granted, told_or_refused};
ghost use Rattle.calls.specs.declared.answer.Answer.{Answer};
ghost use Rattle.calls.specs.declared.answer.Answer.TheVariants.{Done, Value};
ghost use Rattle.calls.specs.Text.{grant_text, text_of};

use crate::fault::Fault;
use crate::hex::Hex;
use std::fmt;

// A granted access.
#[derive(Clone, Copy, Debug, PartialEq, Eq)]
pub struct Grant {
    // the physical address
    pub address: u32,
    // the page's size in bytes as it prints, 0 where there is no page
    pub size: u32,
    pub cache_inhibit: bool,
    pub write_through: bool,
    pub guarded: bool,
}

// The answer to one call.
#[derive(Clone, Copy, Debug, PartialEq, Eq)]
pub enum Answer {
    // accepted, with nothing to tell
    Done,
    // a word read, or a count
    Value(u32),
    // no TLB entry matches
    Miss,
    Granted(Grant),
    Refused(Fault),
}

// What a call tells when it is not refused.
pub trait Told {
    ghost tells: { Self → Answer };

    fn told(self) -> Answer
        ensures { result ≡ tells self };
}

impl Told for () {
    ghost tells = { λ _. Done };

    fn told(self) -> Answer {
        Answer::Done
    }
}

// A word read.
impl Told for u32 {
    ghost tells = { Value };

    fn told(self) -> Answer {
        Answer::Value(self)
    }
}

// An access: no grant is a miss.
impl Told for Option<Grant> {
    ghost tells = { granted };

    fn told(self) -> Answer {
        match self {
            Some(grant) => Answer::Granted(grant),
            None => Answer::Miss,
        }
    }
}

// What a call tells, or why it is refused.
impl<T: Told> From<Result<T, Fault>> for Answer {
    ghost from_gives = { λ r a. a ≡ told_or_refused T.tells r };

    fn from(res: Result<T, Fault>) -> Answer {
        match res {
            Ok(value) => value.told(),
            Err(fault) => Answer::Refused(fault),
        }
    }
}

// A mark that is set is 1, and one that is clear is 0.
impl fmt::Display for Grant {
    ghost output = { λ g. Some (grant_text g) };

    fn fmt<W: fmt::Write>(&self, f: &mut fmt::Formatter<W>) -> fmt::Result {
        let address = Hex(self.address);
        let size = self.size;
        let inhibit = u8::from(self.cache_inhibit);
        let through = u8::from(self.write_through);
        let guarded = u8::from(self.guarded);
        write!(f, "(grant {address} {size} {inhibit} {through} {guarded})")
    }
}

impl fmt::Display for Answer {
    ghost output = { λ a. Some (text_of a) };

    fn fmt<W: fmt::Write>(&self, f: &mut fmt::Formatter<W>) -> fmt::Result {
        match self {
            Answer::Done => write!(f, "(ok)"),
            Answer::Value(word) => write!(f, "(value {})", Hex(*word)),
            Answer::Miss => write!(f, "(miss)"),
            Answer::Granted(grant) => write!(f, "{grant}"),
            Answer::Refused(fault) => write!(f, "{fault}"),
        }
    }
}
