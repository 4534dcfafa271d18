// Scripts, line by line.
ghost use Rattle.std.specs.Prelude.{◌≡◌};
ghost use Rattle.std.specs.Iterator.{YieldsFirst, item_count};
ghost use Rattle.script.specs.Reader.{script_of, line_at};

use crate::form::call_of;
use crate::line::Line;
use crate::pieces::Pieces;
use calls::fault::Fault;
use std::marker::Model;

// The longest script, in bytes.
pub const LONGEST: usize = 65_536;

// A cursor over the lent script.
#[derive(Drop)]
pub struct Reader<'a> {
    // what is told before the lines: that the script is too long
    pending: Option<Line>,
    // the lines that are still to be read
    lines: Pieces<'a>,
    // the number of the next of them
    number: u32,
}

// It is seen as the list of what it has still to tell.
impl<'a> Model for Reader<'a> {
    ghost use Rattle.std.specs.Prelude.{◌+◌, ◌≤◌, List};
    ghost use Rattle.script.specs.declared.line.Line.{Line};
    ghost use Rattle.script.specs.Reader.{upcoming};
    ghost use Rattle.script.specs.Room.{weight};

    ghost Value = { List Line };

    ghost view = { λ r. upcoming r.pending r.number r.lines };

    ghost invariant = { λ r. r.number + weight r.lines ≤ 65538 };
}

// What a line that is not empty reads as.
fn read(number: u32, bytes: &[u8]) -> Line
    ensures { result ≡ line_at number bytes.now }
{
    let call = call_of(bytes).ok_or(Fault::Unreadable { line: number });
    Line { number, call }
}

impl<'a> Reader<'a> {
    // A cursor before the first line.
    pub fn new(script: &'a [u8]) -> Reader<'a>
        ensures { result ≡ script_of script.now }
    {
        let too_long = script.len() > LONGEST;
        let kept = if too_long { &script[0..0] } else { script };
        let call = Err(Fault::TooLong);
        Reader {
            pending: too_long.then_some(Line { number: 0, call }),
            lines: Pieces::new(kept, b'\n'),
            number: 1,
        }
    }
}

// Tells of a script that is too long that alone, and of any other its lines that are not empty.
impl<'a> Iterator for Reader<'a> {
    type Item = Line;

    ghost next_gives = { YieldsFirst (λ reader. reader) };

    ghost remaining = { item_count (λ reader. reader) };

    fn next(&mut self) -> Option<Line> {
        if let Some(line) = self.pending.take() {
            return Some(line);
        }
        // a `for` over `self.lines.by_ref()` leaves the lines unknown behind it
        while let Some(bytes) = self.lines.next() {
            let number = self.number;
            self.number += 1;
            if !bytes.is_empty() {
                return Some(read(number, bytes));
            }
        }
        None
    }
}
