// Control registers and the index of the next load.
ghost use Rattle.std.specs.Prelude.{◌≡◌, ◌%◌, ◌<◌};
ghost use Rattle.tlb.specs.Bits.{flag};
ghost use Rattle.tlb.specs.Control.{group_mode, default_inhibit, default_through, reserve, index_of, with_index, unreserved, next_index, code_of};

use crate::bits::{bit, bits, clear_low};

// The word of MI_CTR or MD_CTR.
#[derive(Clone, Copy)]
pub struct Control(pub u32);

// Each field has its name here, and callers name no places of bits.
impl Control {
    // The group mode is 1.
    pub fn group_mode(self) -> bool
        ensures { result ≡ group_mode self.0 }
    {
        bit(self.0, 0)
    }

    // The page protection mode: protection in parts of 1 KB, which there is not.
    pub fn protection_mode(self) -> bool
        ensures { result ≡ flag 1 self.0 }
    {
        bit(self.0, 1)
    }

    // The tablewalk assist mode of MD_CTR: the layout of tables with pages of 4 KB and more, the only one that there is.
    pub fn walk_assist(self) -> bool
        ensures { result ≡ flag 5 self.0 }
    {
        bit(self.0, 5)
    }

    // Entries for one privilege only, which there are not.
    pub fn state_compare(self) -> bool
        ensures { result ≡ flag 6 self.0 }
    {
        bit(self.0, 6)
    }

    // Cache inhibit where there is no translation.
    pub fn default_inhibit(self) -> bool
        ensures { result ≡ default_inhibit self.0 }
    {
        bit(self.0, 2)
    }

    // Write-through where there is no translation (data only).
    pub fn default_write_through(self) -> bool
        ensures { result ≡ default_through self.0 }
    {
        bit(self.0, 3)
    }

    // The last four slots are reserved.
    pub fn reserve(self) -> bool
        ensures { result ≡ reserve self.0 }
    {
        bit(self.0, 4)
    }

    // The slot that the next load fills.
    pub fn index(self) -> u32
        ensures value { result ≡ index_of self.0 }
        ensures slot { result < 32 }
    {
        bits(self.0, 19, 23)
    }

    // The same word with another index. Slots count modulo 32.
    #[tactic(auto, using(crate::proofs::Fields::put_index), unfolding(crate::specs::Control::with_index))]
    pub fn with_index(self, index: u8) -> Control
        ensures { result.0 ≡ with_index (index % 32) self.0 }
    {
        let index = u32::from(index % 32);
        Control(clear_low(self.0, 13) | (index << 8) | (self.0 & 0xff))
    }
}

// How many slots are not reserved: under the reserve bit all but the last four.
pub fn unreserved(reserved: bool) -> u8
    ensures { result ≡ unreserved reserved }
{
    if reserved { 28 } else { 32 }
}

// The index after a load into slot `index`.
pub fn next_index(index: u8, reserved: bool) -> u8
    ensures { result ≡ next_index reserved index }
{
    let slots = u16::from(unreserved(reserved));
    ((u16::from(index) + slots - 1) % slots) as u8
}

// The code of an access protection group: two bits of the word of MI_AP or MD_AP. Groups count modulo 16.
pub fn group_code(ap: u32, group: u32) -> u32
    ensures { result ≡ code_of ap group }
{
    let place = 2 * (group % 16);
    bits(ap, place, place + 1)
}
