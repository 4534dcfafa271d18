// A word as it prints.
ghost use Rattle.std.specs.Prelude.{Some};
ghost use Rattle.calls.specs.Hex.{eight};

use std::fmt;

// A word as 0x and eight digits.
#[derive(Clone, Copy)]
pub struct Hex(pub u32);

impl fmt::Display for Hex {
    ghost output = { λ h. Some (eight h.0) };

    #[tactic(auto, using(crate::proofs::Digits::word_text))]
    fn fmt<W: fmt::Write>(&self, f: &mut fmt::Formatter<W>) -> fmt::Result {
        let Hex(word) = *self;
        write!(f, "0x{word:08x}")
    }
}
