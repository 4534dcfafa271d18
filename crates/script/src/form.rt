// The forms of the language: one line, one call.
ghost use Rattle.std.specs.Prelude.{◌≡◌, Some};
ghost use Rattle.std.specs.Option.{option_map};
ghost use Rattle.script.specs.Form.{closed_part, with_rest, number_next, closing_next, flag_next, segment_of, page_of, segment_next, page_next, value_next, operands_of, call_next, body_of, form_of, line_of};

use crate::name::Name;
use crate::number::number;
use crate::pieces::Pieces;
use calls::call::Call;

// The words of a form that are still to be read.
#[derive(Drop)]
struct Words<'a> {
    pieces: Pieces<'a>,
}

// The bytes before a closing bracket at the end.
fn closed(bytes: &[u8]) -> Option<&[u8]>
    ensures { option_map (λ x. x.now) result ≡ closed_part bytes.now }
{
    match bytes {
        [front @ .., b')'] => Some(front),
        _ => None,
    }
}

// A first-level descriptor, its limits kept.
fn first_level(base: u32, group: u32, size: u32) -> Option<u32>
    ensures { result ≡ segment_of base group size }
{
    if base % 4096 == 0 && group <= 15 && size <= 3 {
        Some(base + 32 * group + 4 * size + 1)
    } else {
        None
    }
}

// A second-level descriptor, its limits kept.
fn second_level(base: u32, rest: u32) -> Option<u32>
    ensures { result ≡ page_of base rest }
{
    if base % 4096 == 0 && rest <= 4095 {
        Some(base + rest)
    } else {
        None
    }
}

impl<'a> Words<'a> {
    // A number.
    fn number(&mut self) -> Option<u32>
        ensures { number_next self.old.pieces ≡ with_rest result self.new.pieces }
    {
        let word = self.pieces.next()?;
        number(word)
    }

    // A number with a closing bracket behind it.
    fn closing(&mut self) -> Option<u32>
        ensures { closing_next self.old.pieces ≡ with_rest result self.new.pieces }
    {
        let word = self.pieces.next()?;
        let digits = closed(word)?;
        number(digits)
    }

    // 0 or 1.
    fn flag(&mut self) -> Option<bool>
        ensures { flag_next self.old.pieces ≡ with_rest result self.new.pieces }
    {
        let number = self.number()?;
        match number {
            0 => Some(false),
            1 => Some(true),
            _ => None,
        }
    }

    // B g s), a first-level descriptor.
    fn segment(&mut self) -> Option<u32>
        ensures { segment_next self.old.pieces ≡ with_rest result self.new.pieces }
    {
        let base = self.number()?;
        let group = self.number()?;
        let size = self.closing()?;
        first_level(base, group, size)
    }

    // B r), a second-level descriptor.
    fn page(&mut self) -> Option<u32>
        ensures { page_next self.old.pieces ≡ with_rest result self.new.pieces }
    {
        let base = self.number()?;
        let rest = self.closing()?;
        second_level(base, rest)
    }

    // A number or a descriptor.
    fn value(&mut self) -> Option<u32>
        ensures { value_next self.old.pieces ≡ with_rest result self.new.pieces }
    {
        let word = self.pieces.next()?;
        match word {
            b"(seg" => self.segment(),
            b"(page" => self.page(),
            _ => number(word),
        }
    }

    // What follows the name.
    fn operands(&mut self, name: Name) -> Option<Call>
        ensures { operands_of name self.old.pieces ≡ with_rest result self.new.pieces }
    {
        match name {
            Name::Poke => {
                let address = self.number()?;
                let word = self.value()?;
                Some(Call::Poke { address, word })
            }
            Name::Peek => {
                let address = self.number()?;
                Some(Call::Peek { address })
            }
            Name::Write => {
                let register = self.number()?;
                let word = self.value()?;
                Some(Call::Write { register, word })
            }
            Name::Read => {
                let register = self.number()?;
                Some(Call::Read { register })
            }
            Name::Mode => {
                let problem = self.flag()?;
                let instruction = self.flag()?;
                let data = self.flag()?;
                Some(Call::Mode {
                    problem,
                    instruction,
                    data,
                })
            }
            Name::Access => {
                let kind = self.number()?;
                let address = self.number()?;
                Some(Call::Access { kind, address })
            }
            Name::Resolve => {
                let kind = self.number()?;
                let address = self.number()?;
                Some(Call::Resolve { kind, address })
            }
            Name::Drop => {
                let address = self.number()?;
                Some(Call::Drop { address })
            }
            Name::DropAll => Some(Call::DropAll),
            Name::Tally => Some(Call::Tally),
        }
    }

    // The form's name and what follows it.
    fn call(&mut self) -> Option<Call>
        ensures { call_next self.old.pieces ≡ with_rest result self.new.pieces }
    {
        let word = self.pieces.next()?;
        let name = Name::of(word)?;
        self.operands(name)
    }
}

// What stands between a line's brackets.
fn bracketed(line: &[u8]) -> Option<&[u8]>
    ensures { option_map (λ x. x.now) result ≡ body_of line.now }
{
    match line {
        [b'(', rest @ ..] => closed(rest),
        _ => None,
    }
}

// The one form that a line's body writes.
fn form(body: &[u8]) -> Option<Call>
    ensures { result ≡ form_of (Some body.now) }
{
    let mut words = Words {
        pieces: Pieces::new(body, b' '),
    };
    let call = words.call()?;
    match words.pieces.next() {
        Some(_) => None,
        None => Some(call),
    }
}

// The call that a line writes, if it reads.
pub(crate) fn call_of(line: &[u8]) -> Option<Call>
    ensures { result ≡ line_of line.now }
{
    let body = bracketed(line)?;
    form(body)
}
