// What a memory refuses.
ghost use Rattle.std.specs.Prelude.{◌≡◌};
ghost use Rattle.board.specs.Bus.{at_place};

// Why a peek or a poke is refused, in the order in which the reasons are tested; with its number among all faults.
#[derive(Clone, Copy, Debug, PartialEq, Eq)]
pub enum Refusal {
    // the address is no multiple of 4
    Misaligned = 14,
    // the memory has no word there
    NoWord = 15,
    // the word may not be stored to
    NotStorable = 16,
}

// A refusal with the address that was put to the memory.
#[derive(Clone, Copy, Debug, PartialEq, Eq)]
pub struct BusFault {
    pub refusal: Refusal,
    pub address: u32,
}

impl Refusal {
    // The fault of a refusal at an address.
    pub fn at(self, address: u32) -> BusFault
        ensures { result ≡ record { refusal = self; address = address } }
    {
        let refusal = self;
        BusFault { refusal, address }
    }
}

// The same answer; a refusal's place is `address`, as the caller put it.
pub fn relocated<T>(answer: Result<T, BusFault>, address: u32) -> Result<T, BusFault>
    ensures { result ≡ at_place answer address }
{
    answer.map_err(|fault| BusFault { address, ..fault })
}
