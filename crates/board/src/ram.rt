// RAM: bytes lent for writing.
ghost use Rattle.std.specs.Prelude.{◌≡◌};
ghost use Rattle.board.specs.Bytes.{tail};
ghost use Rattle.board.specs.Memory.{peeked, poked, stored};
ghost use Rattle.board.specs.Pile.{Lent, Here, pile_left};
ghost use Rattle.board.specs.Ram.{ram, poked_bytes};

use crate::bus::BusFault;
use crate::bytes;
use crate::memory::Memory;

// The words of the lent bytes, all of them storable.
#[derive(Drop)]
pub struct Ram<'a> {
    bytes: &'a mut [u8],
}

impl<'a> Ram<'a> {
    pub fn new(bytes: &'a mut [u8]) -> Ram<'a>
        ensures bytes { result.bytes.now ≡ bytes.old }
        ensures lent { result.bytes.ghost_name ≡ bytes.entry.ghost_name }
    {
        Ram { bytes }
    }
}

impl<'a> Memory for Ram<'a> {
    ghost meaning = { λ m. ram m.bytes.now };

    ghost spare = { λ m. tail m.bytes.now };

    ghost lent = { λ m. Lent m.bytes.ghost_name m.bytes.now };

    // a word stands at its address, whatever the bytes are: so `places` is `Here ≡ Here`
    ghost place = { λ _. Here };

    fn peek(&self, address: u32) -> Result<u32, BusFault>
        ensures { result ≡ peeked (ram self.now.bytes.now) address }
    {
        bytes::word(self.bytes, address)
    }

    fn poke(&mut self, address: u32, word: u32) -> Result<(), BusFault>
        ensures answer { result ≡ poked (ram self.old.bytes.now) address }
        ensures left { ram self.new.bytes.now ≡ stored (ram self.old.bytes.now) address word }
        ensures same { tail self.new.bytes.now ≡ tail self.old.bytes.now }
        ensures bytes { self.new.bytes.now ≡ poked_bytes self.old.bytes.now address word }
        ensures lent { self.new.bytes.ghost_name ≡ self.old.bytes.ghost_name }
        ensures pile { Lent self.new.bytes.ghost_name self.new.bytes.now ≡ pile_left (poked (ram self.old.bytes.now) address) (Lent self.old.bytes.ghost_name self.old.bytes.now) (Here address) word }
        ensures places { Here ≡ Here }
    {
        let at = bytes::place(self.bytes.len(), address)?;
        let holder = word.to_be_bytes();
        self.bytes[at..at + 4].copy_from_slice(&holder);
        Ok(())
    }
}
