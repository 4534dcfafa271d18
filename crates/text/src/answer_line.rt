// One line of an account.
ghost use Rattle.std.specs.Prelude.{◌≡◌, ◌++◌, string_bytes, OnOk};
ghost use Rattle.text.specs.AnswerLine.{line_text};

use calls::answer::Answer;
use std::alloc::AllocError;
use std::fmt::Write;

// Adds the text of an answer and a newline.
pub fn add_answer(answer: Answer, out: &mut String) -> Result<(), AllocError>
    ensures { OnOk result (string_bytes out.new ≡ string_bytes out.old ++ line_text answer) }
{
    writeln!(out, "{answer}")
}
