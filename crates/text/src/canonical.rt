// The canonical form of a call.
ghost use Rattle.std.specs.Prelude.{◌≡◌, IfOk, string_bytes};
ghost use Rattle.calls.specs.Canonical.{canonical};
ghost use Rattle.text.specs.Law.{ReadsBack};

use calls::call::Call;
use std::alloc::{AllocError, Global};

// The call as a line that reads as that call.
#[tactic(auto, using(crate::proofs::Returns::reads_back))]
pub fn call_text(heap: Global, call: Call) -> Result<String, AllocError>
    ensures text { IfOk result (λ t. string_bytes t ≡ canonical call) }
    ensures law { ReadsBack }
{
    call.to_string(heap)
}
