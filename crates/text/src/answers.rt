// The text of an answer.
ghost use Rattle.std.specs.Prelude.{◌≡◌, IfOk, string_bytes};
ghost use Rattle.calls.specs.Text.{text_of};

use calls::answer::Answer;
use std::alloc::{AllocError, Global};

// An answer as it prints.
pub fn answer_text(heap: Global, answer: Answer) -> Result<String, AllocError>
    ensures { IfOk result (λ t. string_bytes t ≡ text_of answer) }
{
    answer.to_string(heap)
}
