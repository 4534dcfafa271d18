// Banks: one memory in front of another.
ghost use Rattle.std.specs.Prelude.{◌≡◌, ◌++◌};
ghost use Rattle.board.specs.Bank.{bank, picked, shielded, routed_place};
ghost use Rattle.board.specs.Memory.{poked, stored};
ghost use Rattle.board.specs.Pile.{Both, pile_left};

use crate::bus;
use crate::bus::{BusFault, Refusal};
use crate::memory::Memory;

// The bits of a base and of a mask that count: bits 0 to 16, bit 0 being the most significant.
const KEPT: u32 = 0xffff_8000;

// Addresses that agree with the base in the bits of the mask go to the first memory, at the bits outside the mask.
// All others go to the second, as they are. Under the protect flag nothing in the first can be stored to.
#[derive(Drop)]
pub struct Bank<A, B> {
    base: u32,
    mask: u32,
    protect: bool,
    first: A,
    second: B,
}

// Stores to a memory behind a protect flag.
fn poke_shielded<M: Memory>(
    memory: &mut M,
    protect: bool,
    address: u32,
    word: u32,
) -> Result<(), BusFault>
    ensures answer { result ≡ poked (shielded protect (M.Memory.meaning memory.old)) address }
    ensures left { shielded protect (M.Memory.meaning memory.new) ≡ stored (shielded protect (M.Memory.meaning memory.old)) address word }
    ensures same { M.Memory.spare memory.new ≡ M.Memory.spare memory.old }
    ensures pile { M.Memory.lent memory.new ≡ pile_left (poked (shielded protect (M.Memory.meaning memory.old)) address) (M.Memory.lent memory.old) (M.Memory.place memory.old address) word }
    ensures places { M.Memory.place memory.new ≡ M.Memory.place memory.old }
{
    if protect {
        memory.peek(address)?;
        return Err(Refusal::NotStorable.at(address));
    }
    memory.poke(address, word)
}

impl<A, B> Bank<A, B> {
    pub fn new(base: u32, mask: u32, protect: bool, first: A, second: B) -> Bank<A, B>
        ensures { result ≡ record { base = base; mask = mask; protect = protect; first = first; second = second } }
    {
        Bank {
            base,
            mask,
            protect,
            first,
            second,
        }
    }

    // The address that the first memory is asked for, or none where the second is asked.
    fn pick(&self, address: u32) -> Option<u32>
        ensures { result ≡ picked self.now.base self.now.mask address }
    {
        let mask = self.mask & KEPT;
        if address & mask == self.base & mask {
            Some(address & !mask)
        } else {
            None
        }
    }
}

impl<A: Memory, B: Memory> Memory for Bank<A, B> {
    ghost meaning = { λ b. bank b.base b.mask b.protect (A.Memory.meaning b.first) (B.Memory.meaning b.second) };

    ghost spare = { λ b. A.Memory.spare b.first ++ B.Memory.spare b.second };

    ghost lent = { λ b. Both (A.Memory.lent b.first) (B.Memory.lent b.second) };

    ghost place = { λ b. routed_place b.base b.mask (A.Memory.place b.first) (B.Memory.place b.second) };

    fn peek(&self, address: u32) -> Result<u32, BusFault> {
        match self.pick(address) {
            Some(inner) => bus::relocated(self.first.peek(inner), address),
            None => self.second.peek(address),
        }
    }

    fn poke(&mut self, address: u32, word: u32) -> Result<(), BusFault> {
        match self.pick(address) {
            Some(inner) => {
                let answer = poke_shielded(&mut self.first, self.protect, inner, word);
                bus::relocated(answer, address)
            },
            None => self.second.poke(address, word),
        }
    }
}
