// Looks at slots.
use crate::replies::{refused, seen};
use board::ram::Ram;
use calls::answer::Answer;
use calls::call::Call;
use calls::fault::Fault;
use std::test::Fail;
use twin::request::Request;
use twin::twin::Twin;

// A page loaded in space 5 by a resolve is seen in slot 0, live and then ended; the index is where the load left it.
#[test]
fn a_load_is_seen_and_a_drop_too(rt: HostRuntime) -> Result<(), Fail> {
    let mut bytes = [0; 0x2010];
    let mut ram = Ram::new(&mut bytes);
    let mut twin = Twin::new(&mut ram);
    let _ = twin.call(Call::Poke {
        address: 0x1000,
        word: 0x2001,
    });
    let _ = twin.call(Call::Poke {
        address: 0x2004,
        word: 0x51f5,
    });
    let _ = twin.call(Call::Write {
        register: 796,
        word: 0x1000,
    });
    let _ = twin.call(Call::Write {
        register: 793,
        word: 5,
    });
    let _ = twin.call(Call::Mode {
        problem: false,
        instruction: false,
        data: true,
    });
    let _ = twin.call(Call::Resolve {
        kind: 1,
        address: 0x1234,
    });
    let entry = seen(twin.ask(Request::Look { kind: 1, slot: 0 }))?;
    assert!(rt; entry.live);
    assert_eq!(rt; entry.space, 5);
    assert_eq!(rt; entry.page.common.first, 0x1000);
    assert_eq!(rt; entry.page.common.base, 0x5000);
    assert!(rt; entry.page.common.shared && entry.page.common.valid && entry.page.changed);
    assert!(rt; !seen(twin.ask(Request::Look { kind: 1, slot: 31 }))?.live);
    assert_eq!(rt;
        twin.call(Call::Read { register: 792 }),
        Answer::Value(0x0400_1f00)
    );
    let _ = twin.call(Call::Drop { address: 0x1fff });
    let ended = seen(twin.ask(Request::Look { kind: 1, slot: 0 }))?;
    assert!(rt; !ended.live);
    assert_eq!(rt; ended.space, 5);
    assert_eq!(rt; ended.page.common.base, 0x5000);
    Ok(())
}

// The kind is tested before the slot, and a refused look leaves the index.
#[test]
fn looks_are_refused_by_number(rt: HostRuntime) {
    let mut bytes = [0; 4];
    let mut ram = Ram::new(&mut bytes);
    let mut twin = Twin::new(&mut ram);
    let _ = twin.call(Call::Write {
        register: 784,
        word: 0x0000_0700,
    });
    assert_eq!(rt;
        twin.ask(Request::Look { kind: 2, slot: 32 }),
        refused(Fault::NoKind { kind: 2 })
    );
    assert_eq!(rt;
        twin.ask(Request::Look { kind: 0, slot: 32 }),
        refused(Fault::NoSlot { slot: 32 })
    );
    assert_eq!(rt;
        twin.call(Call::Read { register: 784 }),
        Answer::Value(0x0000_0700)
    );
}
