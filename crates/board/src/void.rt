// Where nothing is.
ghost use Rattle.std.specs.Prelude.{[]};
ghost use Rattle.board.specs.Pile.{Lent, Here};
ghost use Rattle.board.specs.Void.{void};

use crate::bus::{BusFault, Refusal};
use crate::bytes;
use crate::memory::Memory;

// A memory without words.
#[derive(Clone, Copy, Debug)]
pub struct Void;

impl Memory for Void {
    ghost meaning = { λ _. void };

    ghost spare = { λ _. [] };

    ghost lent = { λ _. Lent 0 [] };

    // there is no word to stand anywhere
    ghost place = { λ _. Here };

    fn peek(&self, address: u32) -> Result<u32, BusFault> {
        bytes::align(address)?;
        Err(Refusal::NoWord.at(address))
    }

    fn poke(&mut self, address: u32, _word: u32) -> Result<(), BusFault> {
        self.peek(address).map(|_word| ())
    }
}
