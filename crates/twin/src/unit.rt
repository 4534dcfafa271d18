// The unit's state.
ghost use Rattle.std.specs.Prelude.{◌≡◌, ◌<◌};
ghost use Rattle.std.specs.Fn.{FnOnceReturnsAtMut};
ghost use Rattle.twin.specs.Access.{translates};
ghost use Rattle.twin.specs.Unit.{fresh, new_unit, registers, with_registers, space};

use tlb::control::Control;
use tlb::entry::Entry;
use tlb::page::{DataPage, InstructionPage, Page};
use tlb::register::{Kind, Register};

// The words of one kind's registers.
#[derive(Clone, Copy, Debug, PartialEq, Eq)]
pub struct Registers {
    pub ctr: u32,
    pub ap: u32,
    pub epn: u32,
    pub twc: u32,
    pub rpn: u32,
}

// The registers and the slots of one kind.
#[derive(Drop)]
pub struct Half<P> {
    pub registers: Registers,
    pub slots: [Entry<P>; 32],
}

// The privilege, and which translations are on.
#[derive(Clone, Copy, Debug, PartialEq, Eq)]
pub struct Mode {
    pub problem: bool,
    pub instruction: bool,
    pub data: bool,
}

// The halves are of two types, since a page for fetches has less than one for loads and stores. Where a kind is matched
// and both arms call one generic method, the kind meets its type.
#[derive(Drop)]
pub struct Mmu {
    pub instruction: Half<InstructionPage>,
    pub data: Half<DataPage>,
    // the current space, the table base, the scratch register
    pub casid: u32,
    pub twb: u32,
    pub tw: u32,
    pub mode: Mode,
    // how many loads there were
    pub loads: u32,
}

impl<P: Page> Half<P> {
    // A half whose control register has this word: every other register is 0, every slot as if filled from zeros.
    fn new(ctr: u32) -> Half<P>
        ensures { result ≡ fresh P.Page.shape ctr }
    {
        let registers = Registers {
            ctr,
            ap: 0,
            epn: 0,
            twc: 0,
            rpn: 0,
        };
        Half {
            registers,
            slots: [Entry::zero(); 32],
        }
    }
}

impl<P> Half<P> {
    pub(crate) fn control(&self) -> Control
        ensures { result.0 ≡ self.now.registers.ctr }
    {
        Control(self.registers.ctr)
    }
}

impl Mode {
    // Whether the kind's translation is on.
    pub fn translates(self, kind: Kind) -> bool
        ensures { result ≡ translates kind self }
    {
        match kind {
            Kind::Instruction => self.instruction,
            Kind::Data => self.data,
        }
    }
}

impl Mmu {
    // A new unit: every register 0 but MD_CTR, privileged, translations off, every slot as if filled from zeros.
    pub fn new() -> Mmu
        ensures { result ≡ new_unit }
    {
        let mode = Mode {
            problem: false,
            instruction: false,
            data: false,
        };
        Mmu {
            instruction: Half::new(0),
            data: Half::new(0x0400_0000),
            casid: 0,
            twb: 0,
            tw: 0,
            mode,
            loads: 0,
        }
    }

    // The words of a kind's registers.
    pub fn registers(&self, kind: Kind) -> Registers
        ensures { result ≡ registers kind self.now }
    {
        match kind {
            Kind::Instruction => self.instruction.registers,
            Kind::Data => self.data.registers,
        }
    }

    // Changes a kind's registers, and nothing else.
    pub(crate) fn change<F: FnOnce(&mut Registers)>(&mut self, kind: Kind, change: F)
        requires { F.IsAlwaysCallable change }
        ensures changed { FnOnceReturnsAtMut F.FnOnce change (registers kind self.old) tt (registers kind self.new) }
        ensures same { self.new ≡ with_registers kind (registers kind self.new) self.old }
    {
        match kind {
            Kind::Instruction => change(&mut self.instruction.registers),
            Kind::Data => change(&mut self.data.registers),
        }
    }

    // The current space.
    pub fn space(&self) -> u32
        ensures value { result ≡ space self.now }
        ensures small { result < 16 }
    {
        Register::Casid.keep(self.casid)
    }
}
