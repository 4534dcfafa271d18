// Register reads and writes.
ghost use Rattle.std.specs.Prelude.{◌≡◌};
ghost use Rattle.tlb.specs.Register.{register_at};
ghost use Rattle.board.specs.Memory.{Meaning};
ghost use Rattle.calls.specs.Answer.{done_answer, value_answer};
ghost use Rattle.twin.specs.Call.{read_answer, write_outcome, with_mode};
ghost use Rattle.twin.specs.declared.request.Reply.TheVariants as replies;
ghost use Rattle.twin.specs.Registers.{register_read, kept_written, checked};

use crate::unit::{Mmu, Mode, Registers};
use calls::fault::{Fault, Misuse};
use mmu::walk::Table;
use tlb::control::Control;
use tlb::descriptor::{is_marked, is_sized};
use tlb::register::{Kind, Register};

// The register of that number, if it takes the word.
fn check(number: u32, word: u32) -> Result<Register, Fault>
    ensures { result ≡ checked (register_at number) number word }
{
    let control = Control(word);
    let register = Register::try_from(number)?;
    let misuse = match register {
        Register::Ctr(_) if control.protection_mode() || control.state_compare() => Misuse::Mode,
        Register::Ctr(Kind::Data) if !control.walk_assist() => Misuse::Mode,
        Register::Twc(_) if !is_sized(word) => Misuse::Size,
        Register::Rpn(_) if !is_marked(word) => Misuse::Marks,
        _ => return Ok(register),
    };
    Err(Fault::Register {
        misuse,
        register: number,
    })
}

impl Mmu {
    // What a register reads as. M_TWB and MD_TWC are composed for the tablewalk.
    fn get(&self, register: Register) -> u32
        ensures { result ≡ register_read register self.now }
    {
        match register {
            Register::Ctr(kind) => self.registers(kind).ctr,
            Register::Ap(kind) => self.registers(kind).ap,
            Register::Epn(kind) => self.registers(kind).epn,
            Register::Twc(Kind::Instruction) => self.instruction.registers.twc,
            Register::Twc(Kind::Data) => {
                let Registers { twc, epn, .. } = self.data.registers;
                Table::Second.place(twc, epn)
            }
            Register::Rpn(kind) => self.registers(kind).rpn,
            Register::Casid => self.casid,
            Register::Twb => Table::First.place(self.twb, self.data.registers.epn),
            Register::Tw => self.tw,
        }
    }

    // Writes a word that is cut to the kept bits. That of an RPN loads.
    pub(crate) fn set(&mut self, register: Register, word: u32)
        ensures { self.new ≡ kept_written register word self.old }
    {
        match register {
            Register::Ctr(kind) => self.change(kind, |registers| registers.ctr = word),
            Register::Ap(kind) => self.change(kind, |registers| registers.ap = word),
            Register::Epn(kind) => self.change(kind, |registers| registers.epn = word),
            Register::Twc(kind) => self.change(kind, |registers| registers.twc = word),
            Register::Rpn(kind) => self.load(kind, word),
            Register::Casid => self.casid = word,
            Register::Twb => self.twb = word,
            Register::Tw => self.tw = word,
        }
    }

    // Reads the register of that number.
    pub fn read(&self, number: u32) -> Result<u32, Fault>
        ensures { value_answer result ≡ read_answer (register_at number) number self.now }
    {
        let register = Register::try_from(number)?;
        Ok(self.get(register))
    }

    // Writes the register of that number. A refused write changes nothing; that of an RPN loads.
    pub fn write(&mut self, number: u32, word: u32) -> Result<(), Fault>
        ensures answer { (m : Meaning) → replies.Answer (done_answer result) ≡ (write_outcome (register_at number) number word self.old m).reply }
        ensures left { (m : Meaning) → self.new ≡ (write_outcome (register_at number) number word self.old m).unit }
    {
        let register = check(number, word)?;
        self.set(register, register.keep(word));
        Ok(())
    }

    // Sets the privilege, and turns the translations on or off.
    pub fn set_mode(&mut self, mode: Mode)
        ensures { self.new ≡ with_mode mode.problem mode.instruction mode.«data» self.old }
    {
        self.mode = mode;
    }
}
