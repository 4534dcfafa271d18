// Numbers and descriptors.
use calls::call::Call;
use calls::fault::Fault;
use script::line::Line;
use script::reader::Reader;
use std::process::Abort;

// The first line of the script reads as this call.
pub(crate) fn reads(rt: &impl Abort, script: &[u8], call: Call) {
    let number = 1;
    let call = Ok(call);
    assert_eq!(rt; Reader::new(script).next(), Some(Line { number, call }));
}

// The first line of the script does not read.
pub(crate) fn refuses(rt: &impl Abort, script: &[u8]) {
    let number = 1;
    let call = Err(Fault::Unreadable { line: 1 });
    assert_eq!(rt; Reader::new(script).next(), Some(Line { number, call }));
}

#[test]
fn numbers_read(rt: HostRuntime) {
    let most = u32::MAX;
    reads(&rt, b"(peek 0)", Call::Peek { address: 0 });
    reads(&rt, b"(peek 0x0)", Call::Peek { address: 0 });
    reads(
        &rt,
        b"(peek 000000000000000000000000000000000042)",
        Call::Peek { address: 42 },
    );
    reads(
        &rt,
        b"(peek 0x00000000000000000000000000000002a)",
        Call::Peek { address: 42 },
    );
    reads(&rt, b"(peek 4294967295)", Call::Peek { address: most });
    reads(&rt, b"(peek 0xffffffff)", Call::Peek { address: most });
    reads(&rt, b"(peek 0xabcdef)", Call::Peek { address: 0xabcdef });
}

#[test]
fn no_numbers(rt: HostRuntime) {
    refuses(&rt, b"(peek 4294967296)");
    refuses(&rt, b"(peek 0x100000000)");
    refuses(&rt, b"(peek 99999999999999999999999999999999)");
    refuses(&rt, b"(peek 0x)");
    refuses(&rt, b"(peek x1)");
    refuses(&rt, b"(peek 0X1)");
    refuses(&rt, b"(peek 0xA)");
    refuses(&rt, b"(peek 1a)");
    refuses(&rt, b"(peek -1)");
    refuses(&rt, b"(peek +1)");
    refuses(&rt, b"(peek 1_0)");
    refuses(&rt, b"(peek )");
}

#[test]
fn descriptors_read(rt: HostRuntime) {
    let address = 4;
    reads(
        &rt,
        b"(poke 4 (seg 0x2000 0 0))",
        Call::Poke {
            address,
            word: 0x2001,
        },
    );
    reads(
        &rt,
        b"(poke 4 (seg 0xfffff000 15 3))",
        Call::Poke {
            address,
            word: 0xffff_f1ed,
        },
    );
    reads(
        &rt,
        b"(poke 4 (page 0x5000 0x1f1))",
        Call::Poke {
            address,
            word: 0x51f1,
        },
    );
    reads(
        &rt,
        b"(poke 4 (page 0xfffff000 4095))",
        Call::Poke {
            address,
            word: u32::MAX,
        },
    );
    reads(
        &rt,
        b"(write 798 (page 0 0))",
        Call::Write {
            register: 798,
            word: 0,
        },
    );
}

#[test]
fn descriptors_keep_their_limits(rt: HostRuntime) {
    refuses(&rt, b"(poke 4 (seg 0x2001 0 0))");
    refuses(&rt, b"(poke 4 (seg 0x2000 16 0))");
    refuses(&rt, b"(poke 4 (seg 0x2000 0 4))");
    refuses(&rt, b"(poke 4 (seg 0x2000 0))");
    refuses(&rt, b"(poke 4 (seg 0x2000 0 0 0))");
    refuses(&rt, b"(poke 4 (page 0x800 0))");
    refuses(&rt, b"(poke 4 (page 0x1000 4096))");
    refuses(&rt, b"(poke 4 (page 0x1000))");
    refuses(&rt, b"(poke (page 0x1000 0) 4)");
    refuses(&rt, b"(peek (page 0x1000 0))");
    refuses(&rt, b"(poke 4 (page (page 0 0) 0))");
    refuses(&rt, b"(poke 4 ((page 0 0)))");
}
