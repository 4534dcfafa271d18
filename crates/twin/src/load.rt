// Loads and misses.
ghost use Rattle.std.specs.Prelude.{◌≡◌, ◌<◌};
ghost use Rattle.twin.specs.Access.{missed_unit};
ghost use Rattle.twin.specs.Load.{missed_epn, missed, loaded};
ghost use Rattle.twin.specs.Resolve.{loaded_unit};

use crate::unit::{Half, Mmu};
use tlb::control::next_index;
use tlb::entry::Entry;
use tlb::page::Page;
use tlb::register::Kind;
use tlb::source::Source;

// The EPN that a miss of an address in a space sets: the page number, the live bit, the space.
#[tactic(auto, using(crate::proofs::Epns::three_parts))]
fn missed_epn(address: u32, space: u32) -> u32
    requires { space < 16 }
    ensures { result ≡ missed_epn address space }
{
    (address & 0xffff_f000) | 0x200 | space
}

impl<P: Page> Half<P> {
    // Fills the slot at the index from EPN, TWC and the word, which RPN takes; then the index counts down.
    fn load(&mut self, word: u32)
        ensures { self.new ≡ loaded P.Page.shape word self.old }
    {
        let control = self.control();
        let index = control.index() as u8;
        self.slots[usize::from(index)] = Entry::made(Source {
            epn: self.registers.epn,
            twc: self.registers.twc,
            rpn: word,
        });
        self.registers.rpn = word;
        self.registers.ctr = control.with_index(next_index(index, control.reserve())).0;
    }
}

impl Mmu {
    // A miss of an address sets the kind's EPN.
    pub(crate) fn miss(&mut self, kind: Kind, address: u32)
        ensures { self.new ≡ missed_unit kind address self.old }
    {
        let epn = missed_epn(address, self.space());
        self.change(kind, |registers| registers.epn = epn);
    }

    // A load of a word that an RPN takes, by hand or by a resolve. The count of loads stops at the largest word.
    pub(crate) fn load(&mut self, kind: Kind, word: u32)
        ensures { self.new ≡ loaded_unit kind word self.old }
    {
        self.loads = self.loads.saturating_add(1);
        match kind {
            Kind::Instruction => self.instruction.load(word),
            Kind::Data => self.data.load(word),
        }
    }
}
