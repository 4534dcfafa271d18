// Looks at slots.
ghost use Rattle.std.specs.Prelude.{◌≡◌, ◌%◌, ◌<◌};
ghost use Rattle.tlb.specs.Control.{index_of};
ghost use Rattle.tlb.specs.Entry.{entry_of};
ghost use Rattle.twin.specs.Call.{look_kind, look_reply};
ghost use Rattle.twin.specs.Look.{slot_seen, look_as_reply};

use crate::unit::{Half, Mmu};
use calls::fault::Fault;
use tlb::control::Control;
use tlb::entry::Entry;
use tlb::page::{DataPage, InstructionPage, Page};
use tlb::register::Kind;

// The entry that a look saw: live, space and page.
#[derive(Clone, Copy, Debug, PartialEq, Eq)]
pub enum Seen {
    Instruction(Entry<InstructionPage>),
    Data(Entry<DataPage>),
}

// A guard: while it lives, the index of a control register points at a slot. When it ends, the register is as it was.
struct Pointer<'a> {
    ctr: &'a mut u32,
    saved: u32,
}

impl Drop for Pointer<'_> {
    fn drop(self)
        ensures { self.exit.0.now ≡ self.entry.saved }
    {
        *self.ctr = self.saved;
        let Pointer { ctr: _, saved: _ } = self;
    }
}

impl<'a> Pointer<'a> {
    // Points the index at a slot. Slots count modulo 32.
    #[tactic(auto, using(tlb::proofs::Fields::index_put))]
    fn at(ctr: &'a mut u32, slot: u32) -> Pointer<'a>
        ensures saved { result.saved ≡ ctr.old }
        ensures points { index_of result.ctr.now ≡ slot % 32 }
        ensures lent { result.ctr.ghost_name ≡ ctr.entry.ghost_name }
    {
        let saved = *ctr;
        *ctr = Control(saved).with_index((slot % 32) as u8).0;
        Pointer { ctr, saved }
    }

    // The slot that the index points at.
    fn slot(&self) -> usize
        ensures value { result ≡ index_of self.now.ctr.now }
        ensures small { result < 32 }
    {
        Control(*self.ctr).index() as usize
    }
}

// The entry in a slot, by pointing the index at it.
fn pointed<P: Page>(ctr: &mut u32, slots: &[Entry<P>; 32], slot: u32) -> Result<Entry<P>, Fault>
    ensures seen { result ≡ slot_seen slots.now slot (entry_of P.Page.shape.made 0 0 0) }
    ensures back { ctr.new ≡ ctr.old }
{
    let pointer = Pointer::at(ctr, slot);
    if slot > 31 {
        return Err(Fault::NoSlot { slot });
    }
    Ok(slots[pointer.slot()])
}

impl<P: Page> Half<P> {
    fn look(&mut self, slot: u32) -> Result<Entry<P>, Fault>
        ensures seen { result ≡ slot_seen self.old.slots slot (entry_of P.Page.shape.made 0 0 0) }
        ensures back { self.new ≡ self.old }
    {
        pointed(&mut self.registers.ctr, &self.slots, slot)
    }
}

impl Mmu {
    // The entry in a slot of a kind: 0 instruction, 1 data.
    pub fn look(&mut self, kind: u32, slot: u32) -> Result<Seen, Fault>
        ensures seen { look_as_reply result ≡ look_reply (look_kind kind) kind slot self.old }
        ensures back { self.new ≡ self.old }
    {
        match Kind::try_from(kind)? {
            Kind::Instruction => Ok(Seen::Instruction(self.instruction.look(slot)?)),
            Kind::Data => Ok(Seen::Data(self.data.look(slot)?)),
        }
    }
}
