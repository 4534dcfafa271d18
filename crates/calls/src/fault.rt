// How a call is refused.
ghost use Rattle.std.specs.Prelude.{◌≡◌, Some};
ghost use Rattle.calls.specs.Fault.{outside, figures_of, descriptor_level};
ghost use Rattle.calls.specs.Text.{layer_text, fault_text};

use crate::hex::Hex;
use board::bus::BusFault;
use std::fmt;

// Where in a tablewalk a fault arose.
#[derive(Clone, Copy, Debug, PartialEq, Eq)]
pub enum Level {
    Outside = 0,
    First = 1,
    Second = 2,
}

// What refused.
#[derive(Clone, Copy, Debug, PartialEq, Eq)]
pub enum Layer {
    Unit,
    Walk,
    Bus,
    Script,
}

// Why a register call is refused.
#[derive(Clone, Copy, Debug, PartialEq, Eq)]
pub enum Misuse {
    // there is no register of that number
    NoRegister = 1,
    // a control register would get a mode that there is not
    Mode = 2,
    // a tablewalk control register would get a size that there is not
    Size = 3,
    // the mark bits of a real page number are not all one
    Marks = 4,
}

// Why a page refuses an access that it matches, in the order in which the reasons are tested.
#[derive(Clone, Copy, Debug, PartialEq, Eq)]
pub enum Denial {
    // the page is not valid
    Invalid = 6,
    // its access protection group refuses
    Group = 7,
    // its rights refuse
    Rights = 8,
    // a store to a page that is not marked changed
    Unchanged = 9,
}

// Why a tablewalk stops at a descriptor that it has fetched.
#[derive(Clone, Copy, Debug, PartialEq, Eq)]
pub enum Descriptor {
    // the first word is not valid
    FirstInvalid = 10,
    // the first word has a page size that there is not
    FirstSize = 11,
    // the second word is not valid
    SecondInvalid = 12,
    // the second word's mark bits are not all one
    SecondMarks = 13,
}

// A refusal with its place.
#[derive(Clone, Copy, Debug, PartialEq, Eq)]
pub enum Fault {
    // a register call is refused; the place is the register's number
    Register {
        misuse: Misuse,
        register: u32,
    },
    // there is no such kind of access or of look
    NoKind {
        kind: u32,
    },
    // there is no such slot
    NoSlot {
        slot: u32,
    },
    // the page found refuses the access; the place is the effective address
    Denied {
        denial: Denial,
        address: u32,
    },
    // the tablewalk stops; the place is the descriptor's address
    Walk {
        descriptor: Descriptor,
        address: u32,
    },
    // a memory refused; the place is the address that was put to it
    Bus {
        fault: BusFault,
        level: Level,
    },
    // a line of the script does not read; the place is its number, counted from 1
    Unreadable {
        line: u32,
    },
    // the script is longer than is read
    TooLong,
}

// The four figures by which a fault is told.
#[derive(Clone, Copy, Debug, PartialEq, Eq)]
pub struct Figures {
    pub number: u32,
    pub layer: Layer,
    // a number, as it prints
    pub level: u32,
    pub place: u32,
}

impl Descriptor {
    fn level(self) -> Level
        ensures { result ≡ descriptor_level self }
    {
        match self {
            Descriptor::FirstInvalid | Descriptor::FirstSize => Level::First,
            Descriptor::SecondInvalid | Descriptor::SecondMarks => Level::Second,
        }
    }
}

impl Fault {
    // The number, layer, level and place of the fault.
    pub fn figures(self) -> Figures
        ensures { result ≡ figures_of self }
    {
        let (number, layer, level, place) = match self {
            Fault::Register { misuse, register } => {
                (misuse as u32, Layer::Unit, Level::Outside, register)
            }
            Fault::NoKind { kind } => (5, Layer::Unit, Level::Outside, kind),
            Fault::NoSlot { slot } => (17, Layer::Unit, Level::Outside, slot),
            Fault::Denied { denial, address } => {
                (denial as u32, Layer::Unit, Level::Outside, address)
            }
            Fault::Walk {
                descriptor,
                address,
            } => (descriptor as u32, Layer::Walk, descriptor.level(), address),
            Fault::Bus { fault, level } => {
                (fault.refusal as u32, Layer::Bus, level, fault.address)
            }
            Fault::Unreadable { line } => (18, Layer::Script, Level::Outside, line),
            Fault::TooLong => (19, Layer::Script, Level::Outside, 0),
        };
        Figures {
            number,
            layer,
            level: level as u32,
            place,
        }
    }
}

// A memory's refusal outside a tablewalk.
impl From<BusFault> for Fault {
    ghost from_gives = { λ f r. r ≡ outside f };

    fn from(fault: BusFault) -> Fault {
        let level = Level::Outside;
        Fault::Bus { fault, level }
    }
}

impl fmt::Display for Layer {
    ghost output = { λ l. Some (layer_text l) };

    fn fmt<W: fmt::Write>(&self, f: &mut fmt::Formatter<W>) -> fmt::Result {
        match self {
            Layer::Unit => write!(f, "unit"),
            Layer::Walk => write!(f, "walk"),
            Layer::Bus => write!(f, "bus"),
            Layer::Script => write!(f, "script"),
        }
    }
}

impl fmt::Display for Fault {
    ghost output = { λ f. Some (fault_text f) };

    fn fmt<W: fmt::Write>(&self, f: &mut fmt::Formatter<W>) -> fmt::Result {
        let Figures {
            number,
            layer,
            level,
            place,
        } = self.figures();
        write!(f, "(no {number} {layer} {level} {})", Hex(place))
    }
}
