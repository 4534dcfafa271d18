// The tablewalk, over any memory.
ghost use Rattle.std.specs.Prelude.{◌≡◌};
ghost use Rattle.mmu.specs.Walk.{index_in, address_in, level_of, flaw_in, table_word, reading_of};

use board::memory::Memory;
use calls::fault::{Descriptor, Fault, Level};
use tlb::descriptor::{is_marked, is_sized, is_valid, level_one_index, level_two_index};
use tlb::page::Page;
use tlb::source::Source;

// The bits of a table's address, 0 to 19.
const BASE: u32 = 0xffff_f000;

// The two tables that a walk reads a word of.
#[derive(Clone, Copy, Debug, PartialEq, Eq)]
pub enum Table {
    First,
    Second,
}

// The level of a fault that arises at the table.
impl From<Table> for Level {
    ghost from_gives = { λ t l. l ≡ level_of t };

    fn from(table: Table) -> Level {
        match table {
            Table::First => Level::First,
            Table::Second => Level::Second,
        }
    }
}

impl Table {
    // The bits of an address that say which word it is.
    fn index(self, address: u32) -> u32
        ensures { result ≡ index_in self address }
    {
        match self {
            Table::First => level_one_index(address),
            Table::Second => level_two_index(address),
        }
    }

    // Where the word for an address is, the table's own place standing in `base`: the table base or a first word. It is
    // also what a read of M_TWB or of MD_TWC gives for MD_EPN.
    #[tactic(auto, using(crate::proofs::Places::compose, crate::proofs::Tables::address_is, crate::proofs::Tables::index_small))]
    pub fn place(self, base: u32, address: u32) -> u32
        ensures { result ≡ address_in self base address }
    {
        (base & BASE) | (self.index(address) << 2)
    }

    // Why a word stops the walk: a first one that is not valid or names no size, a second one that is not valid or whose
    // mark bits are not all one.
    fn flaw(self, word: u32) -> Option<Descriptor>
        ensures { result ≡ flaw_in self word }
    {
        match self {
            Table::First if !is_valid(word) => Some(Descriptor::FirstInvalid),
            Table::First if !is_sized(word) => Some(Descriptor::FirstSize),
            Table::Second if !is_valid(word) => Some(Descriptor::SecondInvalid),
            Table::Second if !is_marked(word) => Some(Descriptor::SecondMarks),
            _ => None,
        }
    }

    // The word for an address, if the walk goes on with it.
    #[tactic(auto, using(crate::proofs::Tables::word_is), unfolding(crate::proofs::Tables::by_flaw))]
    pub fn word<M: Memory>(self, memory: &M, base: u32, address: u32) -> Result<u32, Fault>
        ensures { result ≡ table_word self (M.Memory.meaning memory.now) base address }
    {
        let level = Level::from(self);
        let place = self.place(base, address);
        let word = memory
            .peek(place)
            .map_err(|fault| Fault::Bus { fault, level })?;
        match self.flaw(word) {
            None => Ok(word),
            Some(descriptor) => Err(Fault::Walk {
                descriptor,
                address: place,
            }),
        }
    }
}

// What the tables give for an address: a page of this kind, or the fault at which the walk stops.
pub fn reading<P: Page, M: Memory>(memory: &M, base: u32, address: u32) -> Result<P, Fault>
    ensures { result ≡ reading_of P.Page.shape.made (M.Memory.meaning memory.now) base address }
{
    let first = Table::First.word(memory, base, address)?;
    let second = Table::Second.word(memory, first, address)?;
    Ok(P::made(Source {
        epn: address,
        twc: first,
        rpn: second,
    }))
}
