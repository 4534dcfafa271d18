// A slice cut at a separator.
ghost use Rattle.std.specs.Prelude.{◌≡◌, ◌∷◌};
ghost use Rattle.std.specs.Iterator.{YieldsFirstRef, item_count};
ghost use Rattle.script.specs.Pieces.{split, remains};

use std::marker::Model;

// The pieces that are still to come, those between separators. After the last one there is no rest.
#[derive(Drop)]
pub(crate) struct Pieces<'a> {
    rest: Option<&'a [u8]>,
    separator: u8,
}

// It is seen as the list of those pieces.
impl<'a> Model for Pieces<'a> {
    ghost use Rattle.std.specs.Prelude.{ℕ, List};

    ghost Value = { List (List ℕ) };

    ghost use Rattle.script.specs.Pieces.{remains};

    ghost view = { λ p. remains p.separator p.rest };
}

// The bytes before the first separator, and the rest behind it if there is one.
fn cut(bytes: &[u8], separator: u8) -> (&[u8], Option<&[u8]>)
    ensures { split separator bytes.now ≡ result.0.now ∷ remains separator result.1 }
{
    // `position`, `splitn` and `split` were tried: each is slower, on a long line or on empty ones
    for (i, byte) in bytes.iter().enumerate() {
        if *byte == separator {
            return (&bytes[0..i], Some(&bytes[i + 1..]));
        }
    }
    (bytes, None)
}

impl<'a> Pieces<'a> {
    pub(crate) fn new(bytes: &'a [u8], separator: u8) -> Pieces<'a>
        ensures { result ≡ split separator bytes.now }
    {
        let rest = Some(bytes);
        Pieces { rest, separator }
    }
}

impl<'a> Iterator for Pieces<'a> {
    type Item = &'a [u8];

    ghost next_gives = { YieldsFirstRef (λ pieces. pieces) };

    ghost remaining = { item_count (λ pieces. pieces) };

    fn next(&mut self) -> Option<&'a [u8]> {
        let rest = self.rest?;
        let (piece, rest) = cut(rest, self.separator);
        self.rest = rest;
        Some(piece)
    }
}
