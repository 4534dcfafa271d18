// A life over a pile of banks: tables in ROM behind a bank, RAM elsewhere.
use crate::replies::refused;
use board::bank::Bank;
use board::bus::{BusFault, Refusal};
use board::ram::Ram;
use board::rom::Rom;
use calls::answer::{Answer, Grant};
use calls::call::Call;
use calls::fault::{Descriptor, Fault, Level};
use std::test::Fail;
use twin::life::live;
use twin::request::{Reply, Request};

// The first word stands at 0x8000 and the second at 0x9004, both in ROM, where a poke is refused; one in RAM is not.
#[test]
fn tables_in_rom(rt: HostRuntime) -> Result<(), Fail> {
    let mut tables = [0; 0x1008];
    tables[2] = 0x90;
    tables[3] = 0x01;
    tables[0x1006] = 0x51;
    tables[0x1007] = 0xf1;
    let mut bytes = [0; 8];
    let mut pile = Bank::new(
        0x8000,
        0xffff_8000,
        false,
        Rom::new(&tables),
        Ram::new(&mut bytes),
    );
    let requests = [
        Request::Call(Call::Poke {
            address: 0x9004,
            word: 0,
        }),
        Request::Call(Call::Poke {
            address: 4,
            word: 7,
        }),
        Request::Call(Call::Write {
            register: 796,
            word: 0x8000,
        }),
        Request::Call(Call::Mode {
            problem: false,
            instruction: true,
            data: false,
        }),
        Request::Call(Call::Resolve {
            kind: 0,
            address: 0x1234,
        }),
        Request::Call(Call::Resolve {
            kind: 0,
            address: 0x0040_0000,
        }),
    ];
    let life = live(rt.alloc(), &mut pile, &requests)?;
    let fault = BusFault {
        refusal: Refusal::NotStorable,
        address: 0x9004,
    };
    let level = Level::Outside;
    let replies = life.replies.as_slice();
    assert_eq!(rt;
        replies.first().copied(),
        Some(refused(Fault::Bus { fault, level }))
    );
    assert_eq!(rt; replies.get(1).copied(), Some(Reply::Answer(Answer::Done)));
    let grant = Grant {
        address: 0x5234,
        size: 4096,
        cache_inhibit: false,
        write_through: false,
        guarded: false,
    };
    assert_eq!(rt;
        replies.get(4).copied(),
        Some(Reply::Answer(Answer::Granted(grant)))
    );
    let descriptor = Descriptor::FirstInvalid;
    let stopped = Fault::Walk {
        descriptor,
        address: 0x8004,
    };
    assert_eq!(rt; replies.get(5).copied(), Some(refused(stopped)));
    assert_eq!(rt; replies.len(), 6);
    Ok(())
}
