// Lines, spaces, brackets and the longest script.
use crate::numbers::{reads, refuses};
use calls::call::Call;
use calls::fault::Fault;
use script::line::Line;
use script::reader::Reader;
use std::test::Fail;

#[test]
fn forms_read(rt: HostRuntime) {
    let address = 8;
    reads(
        &rt,
        b"(write 796 4096)",
        Call::Write {
            register: 796,
            word: 4096,
        },
    );
    reads(&rt, b"(read 797)", Call::Read { register: 797 });
    reads(&rt, b"(access 2 8)", Call::Access { kind: 2, address });
    reads(&rt, b"(resolve 7 8)", Call::Resolve { kind: 7, address });
    reads(&rt, b"(drop 8)", Call::Drop { address });
    reads(&rt, b"(dropall)", Call::DropAll);
    reads(&rt, b"(tally)", Call::Tally);
    let mode = Call::Mode {
        problem: true,
        instruction: false,
        data: true,
    };
    reads(&rt, b"(mode 1 0 0x1)", mode);
    refuses(&rt, b"(mode 1 0 2)");
    refuses(&rt, b"(mode 1 0)");
}

#[test]
fn spaces_and_other_bytes(rt: HostRuntime) {
    refuses(&rt, b"(peek  4)");
    refuses(&rt, b" (peek 4)");
    refuses(&rt, b"(peek 4) ");
    refuses(&rt, b"( peek 4)");
    refuses(&rt, b"(peek 4 )");
    refuses(&rt, b"(peek\t4)");
    refuses(&rt, b"(peek 4)\r\n");
    refuses(&rt, b"\r\n");
    refuses(&rt, b"(peek 4\0)");
    refuses(&rt, b"\0");
    refuses(&rt, b"(PEEK 4)");
    refuses(&rt, b"(tally 4)");
}

#[test]
fn brackets(rt: HostRuntime) {
    refuses(&rt, b"(");
    refuses(&rt, b")");
    refuses(&rt, b"()");
    refuses(&rt, b"peek 4");
    refuses(&rt, b"(peek 4");
    refuses(&rt, b"peek 4)");
    refuses(&rt, b"((peek 4))");
    refuses(&rt, b"(peek 4))");
    refuses(&rt, b"(peek (4))");
    refuses(&rt, b"(poke 4 (seg 0 0 0)");
    refuses(&rt, b"(poke 4 seg 0 0 0)");
    refuses(&rt, b"(tally)(tally)");
}

#[test]
fn empty_lines_count(rt: HostRuntime) {
    let mut reader = Reader::new(b"\n\n(tally)\n\nx\n(dropall)");
    let call = Ok(Call::Tally);
    assert_eq!(rt; reader.next(), Some(Line { number: 3, call }));
    let call = Err(Fault::Unreadable { line: 5 });
    assert_eq!(rt; reader.next(), Some(Line { number: 5, call }));
    let call = Ok(Call::DropAll);
    assert_eq!(rt; reader.next(), Some(Line { number: 6, call }));
    assert_eq!(rt; reader.next(), None);
    assert_eq!(rt; Reader::new(b"").next(), None);
    assert_eq!(rt; Reader::new(b"\n\n\n").next(), None);
}

#[test]
fn the_longest_script(rt: HostRuntime) -> Result<(), Fail> {
    let mut script = vec![in rt.alloc(); b'\n'; 65_529]?;
    script.extend_from_slice(b"(tally)")?;
    assert_eq!(rt; script.len(), 65_536);
    let call = Ok(Call::Tally);
    let last = Line {
        number: 65_530,
        call,
    };
    assert_eq!(rt; Reader::new(script.as_slice()).next(), Some(last));
    script.push(b'\n')?;
    let mut reader = Reader::new(script.as_slice());
    let call = Err(Fault::TooLong);
    assert_eq!(rt; reader.next(), Some(Line { number: 0, call }));
    assert_eq!(rt; reader.next(), None);
    Ok(())
}
