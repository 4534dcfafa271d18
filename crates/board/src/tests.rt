// Examples: the last word and the tail, and piles of banks.
use crate::bank::Bank;
use crate::bus::{BusFault, Refusal};
use crate::memory::Memory;
use crate::ram::Ram;
use crate::rom::Rom;
use crate::void::Void;

// Written out: the memories make their refusals with `Refusal::at`.
fn refused<T>(refusal: Refusal, address: u32) -> Result<T, BusFault> {
    Err(BusFault { refusal, address })
}

#[test]
fn words_are_big_endian_and_a_tail_is_none(rt: HostRuntime) {
    let mut bytes = [1, 2, 3, 4, 5, 6, 7, 8, 9, 10, 11];
    let mut ram = Ram::new(&mut bytes);
    assert_eq!(rt; ram.peek(0), Ok(0x0102_0304));
    assert_eq!(rt; ram.peek(4), Ok(0x0506_0708));
    assert_eq!(rt; ram.peek(8), refused(Refusal::NoWord, 8));
    assert_eq!(rt; ram.peek(2), refused(Refusal::Misaligned, 2));
    assert_eq!(rt; ram.poke(4, 0xa0b0_c0d0), Ok(()));
    assert_eq!(rt; ram.poke(8, 1), refused(Refusal::NoWord, 8));
    assert_eq!(rt; ram.peek(0), Ok(0x0102_0304));
    assert_eq!(rt; bytes, [1, 2, 3, 4, 0xa0, 0xb0, 0xc0, 0xd0, 9, 10, 11]);
}

#[test]
fn rom_is_never_stored_to(rt: HostRuntime) {
    let mut rom = Rom::new(b"\x00\x00\x00\x2a");
    assert_eq!(rt; rom.peek(0), Ok(42));
    assert_eq!(rt; rom.poke(0, 1), refused(Refusal::NotStorable, 0));
    assert_eq!(rt; rom.poke(4, 1), refused(Refusal::NoWord, 4));
    assert_eq!(rt; rom.poke(1, 1), refused(Refusal::Misaligned, 1));
}

// Outermost, RAM where the bits of 0xdfff8000 are those of 0x40000000: bit 2 is not in the mask, so it stays in the
// RAM's address. Then protected RAM at 0. Then ROM where bits 0 to 3 and 16 are those of 0x80000000. Void elsewhere.
#[test]
fn three_banks_pile(rt: HostRuntime) {
    let mut open = [0; 8];
    let mut shut = [0, 0, 0, 7];
    let rom = Bank::new(
        0x8000_0000,
        0xf000_8000,
        false,
        Rom::new(b"\x00\x00\x00\x2a"),
        Void,
    );
    let low = Bank::new(0, 0xffff_8000, true, Ram::new(&mut shut), rom);
    let mut pile = Bank::new(0x4000_7fff, 0xdfff_ffff, false, Ram::new(&mut open), low);
    assert_eq!(rt; pile.poke(0x4000_0004, 5), Ok(()));
    assert_eq!(rt; pile.peek(0x4000_0004), Ok(5));
    assert_eq!(rt;
        pile.peek(0x4000_0008),
        refused(Refusal::NoWord, 0x4000_0008)
    );
    assert_eq!(rt;
        pile.peek(0x6000_0004),
        refused(Refusal::NoWord, 0x6000_0004)
    );
    assert_eq!(rt; pile.peek(0), Ok(7));
    assert_eq!(rt; pile.poke(0, 1), refused(Refusal::NotStorable, 0));
    assert_eq!(rt; pile.poke(4, 1), refused(Refusal::NoWord, 4));
    assert_eq!(rt; pile.peek(0x8000_0000), Ok(42));
    assert_eq!(rt;
        pile.poke(0x8000_0000, 1),
        refused(Refusal::NotStorable, 0x8000_0000)
    );
    assert_eq!(rt;
        pile.peek(0x8000_0002),
        refused(Refusal::Misaligned, 0x8000_0002)
    );
    assert_eq!(rt;
        pile.peek(0x8000_8000),
        refused(Refusal::NoWord, 0x8000_8000)
    );
    assert_eq!(rt;
        pile.poke(0xf000_0000, 1),
        refused(Refusal::NoWord, 0xf000_0000)
    );
}
