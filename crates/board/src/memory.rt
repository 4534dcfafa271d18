// The one interface of all memories.
ghost use Rattle.std.specs.Prelude.{◌≡◌, ℕ, List};
ghost use Rattle.board.specs.Memory.{Meaning, peeked, poked, stored};
ghost use Rattle.board.specs.Pile.{Pile, Place, pile_left};

use crate::bus::BusFault;

pub trait Memory {
    // what the memory means: which word stands at an address, and which addresses may be stored to
    ghost meaning: { Self → Meaning };

    // the bytes it was lent that belong to no word
    ghost spare: { Self → List ℕ };

    // every byte it was lent
    ghost lent: { Self → Pile };

    // where the word at an address stands among them
    ghost place: { Self → ℕ → Place };

    // The word at `address`.
    fn peek(&self, address: u32) -> Result<u32, BusFault>
        ensures { result ≡ peeked (meaning self.now) address };

    // Stores `word` at `address`; a refused poke changes nothing.
    fn poke(&mut self, address: u32, word: u32) -> Result<(), BusFault>
        ensures answer { result ≡ poked (meaning self.old) address }
        ensures left { meaning self.new ≡ stored (meaning self.old) address word }
        ensures same { spare self.new ≡ spare self.old }
        ensures pile { lent self.new ≡ pile_left (poked (meaning self.old) address) (lent self.old) (place self.old address) word }
        ensures places { place self.new ≡ place self.old };
}
