// The names of forms.
ghost use Rattle.std.specs.Prelude.{◌≡◌};
ghost use Rattle.script.specs.Name.{name_of};

// Which form it is.
#[derive(Clone, Copy)]
pub enum Name {
    Poke,
    Peek,
    Write,
    Read,
    Mode,
    Access,
    Resolve,
    Drop,
    DropAll,
    Tally,
}

impl Name {
    // The form of this name.
    pub(crate) fn of(word: &[u8]) -> Option<Name>
        ensures { result ≡ name_of word.now }
    {
        match word {
            b"poke" => Some(Name::Poke),
            b"peek" => Some(Name::Peek),
            b"write" => Some(Name::Write),
            b"read" => Some(Name::Read),
            b"mode" => Some(Name::Mode),
            b"access" => Some(Name::Access),
            b"resolve" => Some(Name::Resolve),
            b"drop" => Some(Name::Drop),
            b"dropall" => Some(Name::DropAll),
            b"tally" => Some(Name::Tally),
            _ => None,
        }
    }
}
