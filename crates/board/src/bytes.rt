// Words in bytes, the highest byte first.
ghost use Rattle.std.specs.Prelude.{◌≡◌, ◌+◌, ◌≤◌, length, IfOk};
ghost use Rattle.board.specs.Bytes.{placed};
ghost use Rattle.board.specs.Memory.{alignment, peeked};
ghost use Rattle.board.specs.Rom.{rom};

use crate::bus::{BusFault, Refusal};

// Whether an address may be a word's: it is a multiple of 4.
pub(crate) fn align(address: u32) -> Result<(), BusFault>
    ensures { result ≡ alignment address }
{
    if address % 4 == 0 {
        Ok(())
    } else {
        Err(Refusal::Misaligned.at(address))
    }
}

// The index of the first byte of the word at `address`, where there are `len` bytes.
pub(crate) fn place(len: usize, address: u32) -> Result<usize, BusFault>
    ensures value { result ≡ placed len address }
    ensures within { IfOk result (λ at. at + 4 ≤ len) }
{
    align(address)?;
    let at = address as usize;
    if at + 4 <= len {
        Ok(at)
    } else {
        Err(Refusal::NoWord.at(address))
    }
}

// The word at `address` of a memory that is made of `bytes`.
pub(crate) fn word(bytes: &[u8], address: u32) -> Result<u32, BusFault>
    ensures { result ≡ peeked (rom bytes.now) address }
{
    let at = place(bytes.len(), address)?;
    let four = bytes[at..].first_chunk().unwrap();
    Ok(u32::from_be_bytes(*four))
}
