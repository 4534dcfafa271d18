// Numbers.
ghost use Rattle.std.specs.Prelude.{◌≡◌, ◌≤◌};
ghost use Rattle.script.specs.Number.{base_of, digit_of, numeral, number_of};

// How a number is written.
#[derive(Clone, Copy)]
enum Base {
    Decimal = 10,
    Hexadecimal = 16,
}

impl Base {
    fn radix(self) -> u32
        ensures value { result ≡ base_of self }
        ensures few { result ≤ 16 }
    {
        self as u32
    }
}

// What a digit of a base up to 16 counts. Letters are lower case alone: `char::to_digit` would take capitals too.
fn digit(byte: u8, base: u32) -> Option<u32>
    ensures { result ≡ digit_of base byte }
{
    let counted = match byte {
        b'0'..=b'9' => (byte - b'0') as u32,
        b'a'..=b'f' => (byte - b'a') as u32 + 10,
        _ => return None,
    };
    if counted < base { Some(counted) } else { None }
}

// The number that the digits write.
fn value(digits: &[u8], base: Base) -> Option<u32>
    ensures { result ≡ numeral (base_of base) digits.now }
{
    if digits.is_empty() {
        return None;
    }
    let radix = base.radix();
    let mut value: u32 = 0;
    for byte in digits {
        let next = digit(*byte, radix)?;
        value = value.checked_mul(radix)?.checked_add(next)?;
    }
    Some(value)
}

// The number that a word writes: digits, or 0x and hexadecimal digits.
pub(crate) fn number(word: &[u8]) -> Option<u32>
    ensures { result ≡ number_of word.now }
{
    match word {
        [b'0', b'x', digits @ ..] => value(digits, Base::Hexadecimal),
        _ => value(word, Base::Decimal),
    }
}
