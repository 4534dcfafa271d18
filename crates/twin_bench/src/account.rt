// The account of a script: one line for each line that it tells of.
ghost use Rattle.std.specs.Prelude.{◌≡◌, ◌⊎◌, [], ◌++◌, IfOk, string_bytes, MatchResult, OnOk};
ghost use Rattle.std.specs.Slice.Iter.{iter_rest};
ghost use Rattle.board.specs.Ram.{ram};
ghost use Rattle.twin_bench.specs.Account.{answer_in, account_text, read_request, requests_of};
ghost use Rattle.twin_bench.specs.Telling.{told_answer, told_behind, told};
ghost use Rattle.script.specs.Reader.{script_of};
ghost use Rattle.twin.specs.Bytes.{ram_after};
ghost use Rattle.twin.specs.Life.{begin};

use calls::answer::Answer;
use script::line::Line;
use script::reader::Reader;
use std::alloc::{AllocError, Global};
use std::slice::Iter;
use text::answer_line::add_answer;
use twin::life::live_in_ram;
use twin::request::{Reply, Request};

// What every line reads as.
fn lines_of(heap: Global, script: &[u8]) -> Result<Vec<Line>, AllocError>
    ensures { IfOk result (λ v. v.items ≡ script_of script.now) }
{
    Reader::new(script).collect(heap)
}

// Adds the call of a line that reads.
fn add_request(line: Line, requests: &mut Vec<Request>) -> Result<(), AllocError>
    ensures { OnOk result (requests.new.items ≡ requests.old.items ++ read_request line.call []) }
{
    if let Ok(call) = line.call {
        requests.push(Request::Call(call))?;
    }
    Ok(())
}

// The calls of the lines that read.
fn requests_in(heap: Global, lines: &[Line]) -> Result<Vec<Request>, AllocError>
    ensures { IfOk result (λ v. v.items ≡ requests_of lines.now) }
{
    let mut requests = Vec::new(heap);
    for line in lines {
        add_request(*line, &mut requests)?;
    }
    Ok(requests)
}

// A reply as an answer. A script has no looks; as any other accepted call one is told as done.
fn answer_in(reply: Reply) -> Answer
    ensures { result ≡ answer_in reply }
{
    match reply {
        Reply::Answer(answer) => answer,
        Reply::Saw(_) => Answer::Done,
    }
}

// The answer to a line: a call takes the next reply, a fault takes none.
fn answer_to(line: Line, replies: &mut Iter<Reply>) -> Answer
    ensures answer { result ≡ told_answer line.call (iter_rest replies.old) }
    ensures left { iter_rest replies.new ≡ told_behind line.call (iter_rest replies.old) }
{
    match line.call {
        Err(fault) => Answer::Refused(fault),
        Ok(_) => replies
            .next()
            .map_or(Answer::Done, |reply| answer_in(*reply)),
    }
}

// The text of all answers, in the order of the lines.
fn tell(heap: Global, lines: &[Line], replies: &[Reply]) -> Result<String, AllocError>
    ensures { IfOk result (λ t. string_bytes t ≡ told lines.now replies.now) }
{
    let mut out = String::new(heap);
    let mut rest = replies.iter();
    for line in lines {
        let answer = answer_to(*line, &mut rest);
        add_answer(answer, &mut out)?;
    }
    Ok(out)
}

// The account of a whole script, run on a new twin over RAM of these bytes. Where memory is wanting, either nothing was
// run and every byte is as it was, or all was run and only its text is lost.
pub fn account_of(heap: Global, bytes: &mut [u8], script: &[u8]) -> Result<String, AllocError>
    ensures text { IfOk result (λ t. string_bytes t ≡ account_text (begin (ram bytes.old)) (script_of script.now)) }
    ensures bytes { MatchResult result (λ _. bytes.new ≡ ram_after bytes.old (requests_of (script_of script.now))) (λ _. (bytes.new ≡ bytes.old) ⊎ (bytes.new ≡ ram_after bytes.old (requests_of (script_of script.now)))) }
{
    let lines = lines_of(heap, script)?;
    let requests = requests_in(heap, lines.as_slice())?;
    let life = live_in_ram(heap, bytes, requests.as_slice())?;
    tell(heap, lines.as_slice(), life.replies.as_slice())
}
