// The account of a script: one line for each line that it tells of.
ghost use Rattle.std.specs.Prelude.{◌≡◌, IfOk, string_bytes, OnOk};
ghost use Rattle.bench.specs.Account.{answer_to, left_by, account_text, left_after};
ghost use Rattle.script.specs.Reader.{script_of};

use board::memory::Memory;
use calls::answer::Answer;
use calls::call::Call;
use calls::fault::Fault;
use script::line::Line;
use script::reader::Reader;
use std::alloc::{AllocError, Global};
use text::answer_line::add_answer;

// The answer to one line. Forms that ask a translation unit are not readable here.
fn answer<M: Memory>(memory: &mut M, line: Line) -> Answer
    ensures answer { result ≡ answer_to (M.Memory.meaning memory.old) line }
    ensures left { M.Memory.meaning memory.new ≡ left_by (M.Memory.meaning memory.old) line }
    ensures same { M.Memory.spare memory.new ≡ M.Memory.spare memory.old }
{
    match line.call {
        Ok(Call::Poke { address, word }) => {
            Answer::from(memory.poke(address, word).map_err(Fault::from))
        }
        Ok(Call::Peek { address }) => Answer::from(memory.peek(address).map_err(Fault::from)),
        Ok(_) => Answer::Refused(Fault::Unreadable { line: line.number }),
        Err(fault) => Answer::Refused(fault),
    }
}

// The account of a whole script, run over a memory. Where memory for the text is wanting, the pokes of some of the first
// lines may have been done.
pub fn account_of<M: Memory>(
    heap: Global,
    memory: &mut M,
    script: &[u8],
) -> Result<String, AllocError>
    ensures text { IfOk result (λ t. string_bytes t ≡ account_text (M.Memory.meaning memory.old) (script_of script.now)) }
    ensures left { OnOk result (M.Memory.meaning memory.new ≡ left_after (M.Memory.meaning memory.old) (script_of script.now)) }
    ensures same { M.Memory.spare memory.new ≡ M.Memory.spare memory.old }
{
    let mut out = String::new(heap);
    for line in Reader::new(script) {
        let answer = answer(memory, line);
        add_answer(answer, &mut out)?;
    }
    Ok(out)
}
