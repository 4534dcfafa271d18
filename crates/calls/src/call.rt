// What can be asked.
ghost use Rattle.std.specs.Prelude.{Some};
ghost use Rattle.calls.specs.Canonical.{canonical};

use crate::hex::Hex;
use std::fmt;

// One call, with its numbers as they were given: none of them is checked here.
#[derive(Clone, Copy, Debug, PartialEq, Eq)]
pub enum Call {
    // stores a word in board memory
    Poke {
        address: u32,
        word: u32,
    },
    // reads a word of board memory
    Peek {
        address: u32,
    },
    // writes a register
    Write {
        register: u32,
        word: u32,
    },
    // reads a register
    Read {
        register: u32,
    },
    // sets the privilege, and turns the two translations on or off
    Mode {
        problem: bool,
        instruction: bool,
        data: bool,
    },
    // one fetch (0), load (1) or store (2)
    Access {
        kind: u32,
        address: u32,
    },
    // an access that walks the tables where it would miss
    Resolve {
        kind: u32,
        address: u32,
    },
    // ends every TLB entry whose page contains the address
    Drop {
        address: u32,
    },
    // ends every TLB entry but reserved ones
    DropAll,
    // counts the loads of TLB entries
    Tally,
}

// The canonical form: the call's words with one space between two, in brackets.
impl fmt::Display for Call {
    ghost output = { λ c. Some (canonical c) };

    #[tactic(auto, using(std::proofs::lemmas::Fmt::decimal_digit))]
    fn fmt<W: fmt::Write>(&self, f: &mut fmt::Formatter<W>) -> fmt::Result {
        match *self {
            Call::Poke { address, word } => write!(f, "(poke {} {})", Hex(address), Hex(word)),
            Call::Peek { address } => write!(f, "(peek {})", Hex(address)),
            Call::Write { register, word } => write!(f, "(write {} {})", Hex(register), Hex(word)),
            Call::Read { register } => write!(f, "(read {})", Hex(register)),
            Call::Mode {
                problem,
                instruction,
                data,
            } => {
                let problem = u8::from(problem);
                let instruction = u8::from(instruction);
                let data = u8::from(data);
                write!(f, "(mode {problem} {instruction} {data})")
            }
            Call::Access { kind, address } => write!(f, "(access {} {})", Hex(kind), Hex(address)),
            Call::Resolve { kind, address } => {
                write!(f, "(resolve {} {})", Hex(kind), Hex(address))
            }
            Call::Drop { address } => write!(f, "(drop {})", Hex(address)),
            Call::DropAll => write!(f, "(dropall)"),
            Call::Tally => write!(f, "(tally)"),
        }
    }
}
