// Accesses that are asked for.
ghost use Rattle.std.specs.Prelude.{◌≡◌};
ghost use Rattle.calls.specs.declared.fault.Fault.TheVariants.{Denied};

use crate::rights::Access;
use calls::fault::{Denial, Fault};

// What is done, at which effective address, whether as problem, and in which space.
#[derive(Clone, Copy, Debug, PartialEq, Eq)]
pub struct Attempt {
    pub access: Access,
    pub address: u32,
    pub problem: bool,
    pub space: u32,
}

impl Attempt {
    // The fault of an attempt that the page found refuses.
    pub fn denied(self, denial: Denial) -> Fault
        ensures { result ≡ Denied denial self.address }
    {
        Fault::Denied {
            denial,
            address: self.address,
        }
    }
}
