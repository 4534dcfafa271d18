// What prints.
use board::bus::{BusFault, Refusal};
use calls::answer::{Answer, Grant};
use calls::call::Call;
use calls::fault::{Fault, Level};
use std::process::Abort;
use std::test::Fail;
use text::answer_line::add_answer;
use text::answers::answer_text;
use text::canonical::call_text;

fn prints(rt: &(impl Abort + AllocGlobal), answer: Answer, text: &str) -> Result<(), Fail> {
    let printed = answer_text(rt.alloc(), answer)?;
    assert_eq!(rt; printed.as_str(), text);
    Ok(())
}

fn writes(rt: &(impl Abort + AllocGlobal), call: Call, text: &str) -> Result<(), Fail> {
    let written = call_text(rt.alloc(), call)?;
    assert_eq!(rt; written.as_str(), text);
    Ok(())
}

#[test]
fn answers_print(rt: HostRuntime) -> Result<(), Fail> {
    let address = 0x8000;
    let refusal = Refusal::NoWord;
    let level = Level::Second;
    let fault = BusFault { refusal, address };
    prints(&rt, Answer::Done, "(ok)")?;
    prints(&rt, Answer::Value(42), "(value 0x0000002a)")?;
    prints(&rt, Answer::Miss, "(miss)")?;
    prints(
        &rt,
        Answer::Refused(Fault::Bus { fault, level }),
        "(no 15 bus 2 0x00008000)",
    )?;
    prints(
        &rt,
        Answer::Refused(Fault::Unreadable { line: 3 }),
        "(no 18 script 0 0x00000003)",
    )?;
    prints(
        &rt,
        Answer::Refused(Fault::TooLong),
        "(no 19 script 0 0x00000000)",
    )?;
    let grant = Grant {
        address: 0x5234,
        size: 4096,
        cache_inhibit: false,
        write_through: true,
        guarded: false,
    };
    prints(&rt, Answer::Granted(grant), "(grant 0x00005234 4096 0 1 0)")
}

#[test]
fn lines_are_added(rt: HostRuntime) -> Result<(), Fail> {
    let mut account = String::new(rt.alloc());
    add_answer(Answer::Value(42), &mut account)?;
    add_answer(Answer::Miss, &mut account)?;
    assert_eq!(rt; account.as_str(), "(value 0x0000002a)\n(miss)\n");
    Ok(())
}

#[test]
fn calls_write(rt: HostRuntime) -> Result<(), Fail> {
    let address = 0xdead_beef;
    let word = 7;
    writes(
        &rt,
        Call::Poke { address, word },
        "(poke 0xdeadbeef 0x00000007)",
    )?;
    let mode = Call::Mode {
        problem: true,
        instruction: false,
        data: true,
    };
    writes(&rt, mode, "(mode 1 0 1)")?;
    writes(&rt, Call::DropAll, "(dropall)")
}
