// The tablewalk over RAM.
use crate::entries::words;
use board::bus::{BusFault, Refusal};
use board::memory::Memory;
use board::ram::Ram;
use calls::fault::{Descriptor, Fault, Level};
use mmu::walk::{Table, reading};
use tlb::page::{DataPage, Page};

// What is read for an address where the two words stand at 0x10 and 0x1004.
fn read(first: u32, second: u32, base: u32, address: u32) -> Result<DataPage, Fault> {
    let mut bytes = [0; 0x1010];
    let mut ram = Ram::new(&mut bytes);
    let _ = ram.poke(0x10, first);
    let _ = ram.poke(0x1004, second);
    reading(&ram, base, address)
}

fn stopped(descriptor: Descriptor, address: u32) -> Result<DataPage, Fault> {
    Err(Fault::Walk {
        descriptor,
        address,
    })
}

fn refused(level: Level, address: u32) -> Result<DataPage, Fault> {
    let refusal = Refusal::NoWord;
    let fault = BusFault { refusal, address };
    Err(Fault::Bus { fault, level })
}

#[test]
fn addresses_of_words(rt: HostRuntime) {
    assert_eq!(rt; Table::First.place(0x1000, 0x00c0_3000), 0x100c);
    assert_eq!(rt; Table::First.place(0xffff_ffff, 0xffff_ffff), 0xffff_fffc);
    assert_eq!(rt; Table::Second.place(0x0000_2fff, 0x0000_1234), 0x2004);
    assert_eq!(rt; Table::Second.place(0xffff_f000, 0x003f_f000), 0xffff_fffc);
}

#[test]
fn walks(rt: HostRuntime) {
    let at = 0x0100_1234;
    let page = DataPage::made(words(at, 0x1001, 0x51f1));
    assert_eq!(rt; read(0x1001, 0x51f1, 0, at), Ok(page));
    assert_eq!(rt;
        read(0x1000, 0x51f1, 0, at),
        stopped(Descriptor::FirstInvalid, 0x10)
    );
    assert_eq!(rt;
        read(0x1008, 0x51f1, 0, at),
        stopped(Descriptor::FirstInvalid, 0x10)
    );
    assert_eq!(rt;
        read(0x1009, 0x51f1, 0, at),
        stopped(Descriptor::FirstSize, 0x10)
    );
    assert_eq!(rt;
        read(0x1001, 0x51f0, 0, at),
        stopped(Descriptor::SecondInvalid, 0x1004)
    );
    assert_eq!(rt;
        read(0x1001, 0x51e0, 0, at),
        stopped(Descriptor::SecondInvalid, 0x1004)
    );
    assert_eq!(rt;
        read(0x1001, 0x51e1, 0, at),
        stopped(Descriptor::SecondMarks, 0x1004)
    );
    assert_eq!(rt;
        read(0x1001, 0x51f1, 0x4000, at),
        refused(Level::First, 0x4010)
    );
    assert_eq!(rt; read(0x2001, 0x51f1, 0, at), refused(Level::Second, 0x2004));
}
