// Fields of effective addresses and of descriptors, as the tablewalk takes them: each has its name here.
ghost use Rattle.std.specs.Prelude.{◌≡◌};
ghost use Rattle.tlb.specs.Bits.{field, flag};
ghost use Rattle.tlb.specs.Descriptor.{sized, marked};

use crate::bits::{bit, bits};

// The level-one index of an address: bits 0 to 9.
pub fn level_one_index(address: u32) -> u32
    ensures { result ≡ field 0 9 address }
{
    bits(address, 0, 9)
}

// The level-two index of an address: bits 10 to 19.
pub fn level_two_index(address: u32) -> u32
    ensures { result ≡ field 10 19 address }
{
    bits(address, 10, 19)
}

// The size bits of a level-one descriptor, 28 and 29.
pub fn size_bits(word: u32) -> u32
    ensures { result ≡ field 28 29 word }
{
    bits(word, 28, 29)
}

// The mark bits of a level-two descriptor, 24 to 27.
pub fn mark_bits(word: u32) -> u32
    ensures { result ≡ field 24 27 word }
{
    bits(word, 24, 27)
}

// Whether the size bits name a size.
pub fn is_sized(word: u32) -> bool
    ensures { result ≡ sized word }
{
    size_bits(word) != 2
}

// Whether the mark bits are all one.
pub fn is_marked(word: u32) -> bool
    ensures { result ≡ marked word }
{
    mark_bits(word) == 15
}

// Whether a descriptor is valid: bit 31.
pub fn is_valid(word: u32) -> bool
    ensures { result ≡ flag 31 word }
{
    bit(word, 31)
}
