// Tallies.
ghost use Rattle.std.specs.Prelude.{◌≡◌};

use crate::unit::Mmu;

impl Mmu {
    // The count of all loads.
    pub fn tally(&self) -> u32
        ensures { result ≡ self.now.loads }
    {
        self.loads
    }
}
