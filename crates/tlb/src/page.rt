// Pages.
ghost use Rattle.std.specs.Prelude.{◌≡◌, ◌<◌, ◌&&◌};
ghost use Rattle.tlb.specs.Bits.{flag};
ghost use Rattle.tlb.specs.Page.{offset_bits, bytes_in, size_of, common_of, contains, physical};
ghost use Rattle.tlb.specs.Shape.{Shape, instruction_shape, data_shape};

use crate::bits::{bit, bits, clear_low};
use crate::source::Source;

#[derive(Clone, Copy, Debug, PartialEq, Eq)]
pub enum Size {
    Kb4,
    Kb16,
    Kb512,
    Mb8,
}

impl Size {
    // How many low bits of an address are the offset.
    pub fn offset_bits(self) -> u32
        ensures value { result ≡ offset_bits self }
        ensures few { result < 24 }
    {
        match self {
            Size::Kb4 => 12,
            Size::Kb16 => 14,
            Size::Kb512 => 19,
            Size::Mb8 => 23,
        }
    }

    pub fn bytes(self) -> u32
        ensures value { result ≡ bytes_in self }
        ensures some { 0 < result }
    {
        1 << self.offset_bits()
    }
}

// The size that TWC and RPN give.
impl From<Source> for Size {
    ghost from_gives = { λ s r. r ≡ size_of s.twc s.rpn };

    fn from(source: Source) -> Size {
        match (
            bit(source.twc, 29),
            bit(source.twc, 28),
            bit(source.rpn, 28),
        ) {
            (true, true, _) => Size::Mb8,
            (true, false, _) => Size::Kb512,
            (false, _, true) => Size::Kb16,
            (false, _, false) => Size::Kb4,
        }
    }
}

// What both kinds of page have.
#[derive(Clone, Copy, Debug, PartialEq, Eq)]
pub struct Common {
    pub size: Size,
    // the first effective address
    pub first: u32,
    // the physical base
    pub base: u32,
    // the access protection group
    pub group: u32,
    pub guarded: bool,
    // RPN bits 20 to 22: the protection pair, then the extended bit
    pub rights: u32,
    pub shared: bool,
    pub cache_inhibit: bool,
    // a flag: a page that is not valid still matches, and then refuses
    pub valid: bool,
}

// A page for fetches.
#[derive(Clone, Copy, Debug, PartialEq, Eq)]
pub struct InstructionPage {
    pub common: Common,
}

// A page for loads and stores.
#[derive(Clone, Copy, Debug, PartialEq, Eq)]
pub struct DataPage {
    pub common: Common,
    pub write_through: bool,
    pub changed: bool,
}

// Whether both words of a page are valid.
fn both_valid(source: Source) -> bool
    ensures { result ≡ (flag 31 source.twc && flag 31 source.rpn) }
{
    bit(source.twc, 31) && bit(source.rpn, 31)
}

// The common part of the page that these words make.
impl From<Source> for Common {
    ghost from_gives = { λ s r. r ≡ common_of s.epn s.twc s.rpn };

    #[tactic(auto, unfolding(crate::specs::Page::common_of))]
    fn from(source: Source) -> Common {
        let Source { epn, twc, rpn } = source;
        let size = Size::from(source);
        let offset = size.offset_bits();
        Common {
            size,
            first: clear_low(epn, offset),
            base: clear_low(rpn, offset),
            group: bits(twc, 23, 26),
            guarded: bit(twc, 27),
            rights: bits(rpn, 20, 22),
            shared: bit(rpn, 29),
            cache_inhibit: bit(rpn, 30),
            valid: both_valid(source),
        }
    }
}

impl Common {
    // Whether the page contains an address.
    #[tactic(auto, unfolding(crate::specs::Page::contains))]
    pub fn contains(&self, address: u32) -> bool
        ensures { result ≡ contains self.now address }
    {
        clear_low(address, self.size.offset_bits()) == self.first
    }

    // The physical address of an effective one.
    #[tactic(auto, using(crate::proofs::Fields::join_offset))]
    pub fn physical(&self, address: u32) -> u32
        ensures { result ≡ physical self.now address }
    {
        let base = clear_low(self.base, self.size.offset_bits());
        let bytes = self.size.bytes();
        base | (address & (bytes - 1))
    }
}

// What is asked of either kind of page.
pub trait Page: Copy {
    // how a page of this kind is made, and what is read of it
    ghost shape: { Shape Self };

    // A constructor and no `From`, so that its promise stands in `shape`.
    fn made(source: Source) -> Self
        ensures { result ≡ shape.made source.epn source.twc source.rpn };

    fn common(&self) -> Common
        ensures { result ≡ shape.body self.now };

    fn write_through(&self) -> bool
        ensures { result ≡ shape.through self.now };

    fn changed(&self) -> bool
        ensures { result ≡ shape.changed self.now };
}

impl Page for InstructionPage {
    ghost shape = { instruction_shape };

    fn made(source: Source) -> InstructionPage {
        let common = Common::from(source);
        InstructionPage { common }
    }

    fn common(&self) -> Common {
        self.common
    }

    fn write_through(&self) -> bool {
        false
    }

    fn changed(&self) -> bool {
        true
    }
}

impl Page for DataPage {
    ghost shape = { data_shape };

    fn made(source: Source) -> DataPage {
        let common = Common::from(source);
        let write_through = bit(source.twc, 30);
        let changed = bit(source.rpn, 23);
        DataPage {
            common,
            write_through,
            changed,
        }
    }

    fn common(&self) -> Common {
        self.common
    }

    fn write_through(&self) -> bool {
        self.write_through
    }

    fn changed(&self) -> bool {
        self.changed
    }
}
