// The registers of the unit.
ghost use Rattle.std.specs.Prelude.{◌≡◌, bit_and};
ghost use Rattle.std.specs.Option.{ok_or};
ghost use Rattle.calls.specs.declared.fault.Fault.TheVariants as faults;
ghost use Rattle.calls.specs.declared.fault.Fault.TheVariants.{NoKind};
ghost use Rattle.calls.specs.declared.fault.Misuse.TheVariants.{NoRegister};
ghost use Rattle.tlb.specs.Register.{kind_at, kept_bits, register_at, fields_of, Agree};

use calls::fault::{Fault, Misuse};

// The two kinds: instruction (MI, for fetches) and data (MD, for loads and stores).
#[derive(Clone, Copy, Debug, PartialEq, Eq)]
pub enum Kind {
    Instruction,
    Data,
}

// The registers by their published names: MI_CTR is `Ctr(Kind::Instruction)`, M_TWB is `Twb`.
#[derive(Clone, Copy, Debug, PartialEq, Eq)]
pub enum Register {
    // control
    Ctr(Kind),
    // access protection groups
    Ap(Kind),
    // effective page number
    Epn(Kind),
    // tablewalk control
    Twc(Kind),
    // real page number
    Rpn(Kind),
    // the current space
    Casid,
    // the table base
    Twb,
    // scratch
    Tw,
}

// The kind of that number.
impl TryFrom<u32> for Kind {
    type Error = Fault;

    ghost try_from_gives = { λ n r. r ≡ ok_or (kind_at n) (NoKind n) };

    fn try_from(kind: u32) -> Result<Kind, Fault> {
        match kind {
            0 => Ok(Kind::Instruction),
            1 => Ok(Kind::Data),
            _ => Err(Fault::NoKind { kind }),
        }
    }
}

// The register of that number.
impl TryFrom<u32> for Register {
    type Error = Fault;

    ghost try_from_gives = { λ n r. r ≡ ok_or (register_at n) (faults.Register NoRegister n) };

    fn try_from(number: u32) -> Result<Register, Fault> {
        match number {
            784 => Ok(Register::Ctr(Kind::Instruction)),
            786 => Ok(Register::Ap(Kind::Instruction)),
            787 => Ok(Register::Epn(Kind::Instruction)),
            789 => Ok(Register::Twc(Kind::Instruction)),
            790 => Ok(Register::Rpn(Kind::Instruction)),
            792 => Ok(Register::Ctr(Kind::Data)),
            793 => Ok(Register::Casid),
            794 => Ok(Register::Ap(Kind::Data)),
            795 => Ok(Register::Epn(Kind::Data)),
            796 => Ok(Register::Twb),
            797 => Ok(Register::Twc(Kind::Data)),
            798 => Ok(Register::Rpn(Kind::Data)),
            799 => Ok(Register::Tw),
            _ => Err(Fault::Register {
                misuse: Misuse::NoRegister,
                register: number,
            }),
        }
    }
}

impl Register {
    // The bits that a write keeps.
    pub fn kept(self) -> u32
        ensures { result ≡ kept_bits self }
    {
        match self {
            Register::Ctr(Kind::Instruction) => 0xa800_1f00,
            Register::Ctr(Kind::Data) => 0xbc00_1f00,
            Register::Epn(_) => 0xffff_f20f,
            Register::Twc(Kind::Instruction) => 0x0000_01fd,
            Register::Twc(Kind::Data) => 0xffff_f1ff,
            Register::Casid => 0x0000_000f,
            Register::Twb => 0xffff_f000,
            Register::Ap(_) | Register::Rpn(_) | Register::Tw => 0xffff_ffff,
        }
    }

    // What is kept of a word that is written: every field that is taken from the register is in it.
    #[tactic(auto, using(crate::proofs::KeptFields::fields_kept))]
    pub fn keep(self, word: u32) -> u32
        ensures value { result ≡ bit_and word (kept_bits self) }
        ensures fields { Agree (fields_of self) result word }
    {
        word & self.kept()
    }
}
