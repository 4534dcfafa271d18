// Pages, entries, the search and the index.
use calls::fault::{Fault, Misuse};
use std::process::Abort;
use tlb::control::{Control, next_index};
use tlb::entry::Entry;
use tlb::page::{Common, DataPage, InstructionPage, Page, Size};
use tlb::register::{Kind, Register};
use tlb::search::{Matching, find};
use tlb::source::Source;

// What an entry is loaded from.
pub(crate) fn words(epn: u32, twc: u32, rpn: u32) -> Source {
    Source { epn, twc, rpn }
}

// A live data entry of a space at an address, of the size that these bits of TWC and RPN give.
fn entry(address: u32, space: u32, twc: u32, rpn: u32) -> Entry<DataPage> {
    Entry::made(words((address & 0xffff_f000) | 0x200 | (space & 15), twc, rpn))
}

fn translates(rt: &impl Abort, page: Common, address: u32, physical: u32) {
    assert!(rt; page.contains(address));
    assert_eq!(rt; page.physical(address), physical);
}

#[test]
fn sizes(rt: HostRuntime) {
    let small = DataPage::made(words(0, 0, 0x0000_7000)).common;
    assert_eq!(rt; small.size, Size::Kb4);
    translates(&rt, small, 0xfff, 0x7fff);
    assert!(rt; !small.contains(0x1000));
    let medium = DataPage::made(words(0, 0, 0x0000_7008)).common;
    assert_eq!(rt; medium.size, Size::Kb16);
    translates(&rt, medium, 0x2345, 0x6345);
    let large = InstructionPage::made(words(0, 4, 0x1238_0000)).common;
    assert_eq!(rt; large.size, Size::Kb512);
    translates(&rt, large, 0x0007_ffff, 0x123f_ffff);
    assert!(rt; !large.contains(0x0008_0000));
    let huge = InstructionPage::made(words(0x0080_1000, 12, 0x12ff_f000)).common;
    assert_eq!(rt; huge.size, Size::Mb8);
    translates(&rt, huge, 0x00ff_ffff, 0x12ff_ffff);
    assert!(rt; !huge.contains(0x007f_ffff));
}

#[test]
fn fields_of_a_page(rt: HostRuntime) {
    let page = DataPage::made(words(0xffff_ffff, 0x0000_01f3, 0xffff_ffff));
    assert_eq!(rt; page.common.group, 15);
    assert!(rt; page.common.guarded && page.write_through && page.changed);
    assert!(rt; page.common.shared && page.common.cache_inhibit && page.common.valid);
    assert_eq!(rt; page.common.rights, 7);
    let page = DataPage::made(words(0, 0x0000_0021, 0x0000_0a01));
    assert_eq!(rt; page.common.group, 1);
    assert_eq!(rt; page.common.rights, 5);
    assert!(rt; page.common.valid && !page.common.guarded && !page.changed);
}

#[test]
fn the_lowest_match_is_found(rt: HostRuntime) {
    let a = 0x0040_0000;
    let slots = [
        entry(a, 2, 0, 0),
        entry(a + 0x1000, 1, 0, 0),
        entry(a, 1, 4, 0),
        entry(a, 1, 0, 0),
        entry(a + 0x2000, 9, 0, 4),
        Entry::zero(),
    ];
    assert_eq!(rt; find(&slots, a + 4, 1), Some(2));
    assert_eq!(rt; find(&slots, a + 4, 2), Some(0));
    assert_eq!(rt; find(&slots, a + 0x1004, 1), Some(1));
    assert_eq!(rt; find(&slots, a + 0x1004, 2), None);
    assert_eq!(rt; find(&slots, a + 0x2004, 3), Some(4));
    assert_eq!(rt; find(&slots, 0, 0), None);
}

#[test]
fn an_entry_that_is_not_live_never_matches(rt: HostRuntime) {
    let live = Entry::<InstructionPage>::made(words(0x200, 0, 0));
    let dead = Entry::<InstructionPage>::made(words(0, 0, 0));
    assert!(rt; live.matches(0, 0));
    assert!(rt; !live.matches(0, 1));
    assert!(rt; !dead.matches(0, 0));
}

#[test]
fn the_index_counts_down(rt: HostRuntime) {
    for index in 1..32u8 {
        assert_eq!(rt; next_index(index, false), index - 1);
    }
    for index in 1..28u8 {
        assert_eq!(rt; next_index(index, true), index - 1);
    }
    assert_eq!(rt; next_index(0, false), 31);
    assert_eq!(rt; next_index(0, true), 27);
    assert_eq!(rt; next_index(28, true), 27);
    assert_eq!(rt; next_index(29, true), 0);
    assert_eq!(rt; next_index(31, true), 2);
}

// There is no register of that number.
fn unknown(register: u32) -> Result<Register, Fault> {
    let misuse = Misuse::NoRegister;
    Err(Fault::Register { misuse, register })
}

#[test]
fn registers(rt: HostRuntime) {
    assert_eq!(rt;
        Register::try_from(784),
        Ok(Register::Ctr(Kind::Instruction))
    );
    assert_eq!(rt; Register::try_from(798), Ok(Register::Rpn(Kind::Data)));
    assert_eq!(rt; Register::try_from(785), unknown(785));
    assert_eq!(rt; Register::try_from(800), unknown(800));
    assert_eq!(rt; Kind::try_from(1), Ok(Kind::Data));
    assert_eq!(rt; Kind::try_from(2), Err(Fault::NoKind { kind: 2 }));
    assert_eq!(rt; Register::Casid.keep(0xffff_fff7), 7);
    let control = Control(0x0800_1b00);
    assert!(rt; control.reserve() && !control.group_mode() && !control.default_inhibit());
    assert_eq!(rt; control.index(), 27);
}
