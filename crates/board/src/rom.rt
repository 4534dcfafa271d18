// ROM: bytes lent for reading.
ghost use Rattle.std.specs.Prelude.{◌≡◌};
ghost use Rattle.board.specs.Bytes.{tail};
ghost use Rattle.board.specs.Memory.{peeked, poked, stored};
ghost use Rattle.board.specs.Pile.{Lent, Here, pile_left};
ghost use Rattle.board.specs.Rom.{rom};

use crate::bus::{BusFault, Refusal};
use crate::bytes;
use crate::memory::Memory;

// The words of the lent bytes; none of them can be stored to.
#[derive(Clone, Copy, Debug)]
pub struct Rom<'a> {
    bytes: &'a [u8],
}

impl<'a> Rom<'a> {
    pub fn new(bytes: &'a [u8]) -> Rom<'a>
        ensures { result.bytes.now ≡ bytes.now }
    {
        Rom { bytes }
    }
}

impl<'a> Memory for Rom<'a> {
    ghost meaning = { λ m. rom m.bytes.now };

    ghost spare = { λ m. tail m.bytes.now };

    // bytes lent for reading cannot change, so nothing asks for the name of what lent them
    ghost lent = { λ m. Lent 0 m.bytes.now };

    // a word stands at its address, whatever the bytes are: so `places` is `Here ≡ Here`
    ghost place = { λ _. Here };

    fn peek(&self, address: u32) -> Result<u32, BusFault>
        ensures { result ≡ peeked (rom self.now.bytes.now) address }
    {
        bytes::word(self.bytes, address)
    }

    fn poke(&mut self, address: u32, word: u32) -> Result<(), BusFault>
        ensures answer { result ≡ poked (rom self.old.bytes.now) address }
        ensures left { rom self.new.bytes.now ≡ stored (rom self.old.bytes.now) address word }
        ensures same { tail self.new.bytes.now ≡ tail self.old.bytes.now }
        ensures bytes { self.new.bytes.now ≡ self.old.bytes.now }
        ensures pile { Lent 0 self.new.bytes.now ≡ pile_left (poked (rom self.old.bytes.now) address) (Lent 0 self.old.bytes.now) (Here address) word }
        ensures places { Here ≡ Here }
    {
        bytes::place(self.bytes.len(), address)?;
        Err(Refusal::NotStorable.at(address))
    }
}
