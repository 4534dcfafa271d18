// Fields of a word, bit 0 being the most significant.
ghost use Rattle.std.specs.Prelude.{◌≡◌, ◌+◌, ◌<◌, ◌≤◌};
ghost use Rattle.tlb.specs.Bits.{field, flag, cleared};

// Bits `first` to `last` of a word. No field is a whole word.
#[tactic(auto, using(crate::proofs::Fields::shift_mask))]
pub(crate) fn bits(word: u32, first: u32, last: u32) -> u32
    requires order { first ≤ last }
    requires within { last < 32 }
    requires part { last < first + 31 }
    ensures { result ≡ field first last word }
{
    (word >> (31 - last)) & ((1 << (last + 1 - first)) - 1)
}

// Whether a bit of a word is set.
pub(crate) fn bit(word: u32, place: u32) -> bool
    requires { place < 32 }
    ensures { result ≡ flag place word }
{
    bits(word, place, place) == 1
}

// A word with its low `count` bits cleared.
pub(crate) fn clear_low(word: u32, count: u32) -> u32
    requires { count < 32 }
    ensures { result ≡ cleared count word }
{
    (word >> count) << count
}
