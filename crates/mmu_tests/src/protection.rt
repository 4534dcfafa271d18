// Rights, groups and the verdict.
use crate::entries::words;
use calls::answer::Grant;
use calls::fault::{Denial, Fault};
use mmu::attempt::Attempt;
use mmu::rights::{Access, Protection, Ruling, allowed};
use mmu::verdict::verdict;
use std::process::Abort;
use tlb::page::{DataPage, InstructionPage, Page};
use tlb::register::Kind;

// Load, store and fetch, for a rights field and a privilege.
fn row(rt: &impl Abort, rights: u32, problem: bool, load: bool, store: bool, fetch: bool) {
    assert_eq!(rt; allowed(rights, problem, Access::Load), load);
    assert_eq!(rt; allowed(rights, problem, Access::Store), store);
    assert_eq!(rt; allowed(rights, problem, Access::Fetch), fetch);
}

#[test]
fn kinds_of_access(rt: HostRuntime) {
    assert_eq!(rt; Access::try_from(0), Ok(Access::Fetch));
    assert_eq!(rt; Access::try_from(2), Ok(Access::Store));
    assert_eq!(rt; Access::try_from(3), Err(Fault::NoKind { kind: 3 }));
    assert_eq!(rt; Access::Fetch.kind(), Kind::Instruction);
    assert_eq!(rt; Access::Store.kind(), Kind::Data);
}

#[test]
fn the_rights(rt: HostRuntime) {
    row(&rt, 0, false, true, true, true);
    row(&rt, 0, true, false, false, false);
    row(&rt, 2, false, true, true, true);
    row(&rt, 2, true, true, false, true);
    row(&rt, 4, false, true, true, true);
    row(&rt, 4, true, true, true, true);
    row(&rt, 6, false, true, false, true);
    row(&rt, 6, true, true, false, true);
    row(&rt, 3, false, true, false, true);
    row(&rt, 3, true, false, false, false);
    for rights in [1, 5, 7] {
        row(&rt, rights, false, false, false, false);
        row(&rt, rights, true, false, false, false);
    }
}

#[test]
fn group_codes(rt: HostRuntime) {
    // groups 0 to 3 have the codes 00, 01, 10 and 11, group 15 has 10
    let ap = 0x1b00_0002;
    let open = Protection {
        group_mode: false,
        ap,
    };
    let domains = Protection {
        group_mode: true,
        ap,
    };
    assert_eq!(rt; open.ruling(0, true), Ruling::Test { problem: false });
    assert_eq!(rt; open.ruling(1, true), Ruling::Test { problem: true });
    assert_eq!(rt; open.ruling(2, true), Ruling::Test { problem: false });
    assert_eq!(rt; open.ruling(2, false), Ruling::Test { problem: true });
    assert_eq!(rt; open.ruling(3, false), Ruling::Test { problem: true });
    assert_eq!(rt; open.ruling(15, false), Ruling::Test { problem: true });
    assert_eq!(rt; domains.ruling(0, false), Ruling::Refuse);
    assert_eq!(rt; domains.ruling(1, false), Ruling::Test { problem: false });
    assert_eq!(rt; domains.ruling(2, false), Ruling::Refuse);
    assert_eq!(rt; domains.ruling(3, true), Ruling::Exempt);
}

// An access in space 0.
fn attempt(access: Access, problem: bool, address: u32) -> Attempt {
    Attempt {
        access,
        address,
        problem,
        space: 0,
    }
}

fn denied<T>(denial: Denial, address: u32) -> Result<T, Fault> {
    Err(Fault::Denied { denial, address })
}

#[test]
fn the_order_of_tests(rt: HostRuntime) {
    let at = 0x1234;
    let shut = Protection {
        group_mode: true,
        ap: 0,
    };
    let open = Protection {
        group_mode: false,
        ap: 0x4000_0000,
    };
    let invalid = DataPage::made(words(0x1000, 0, 0x5001));
    let page = DataPage::made(words(0x1000, 1, 0x5001));
    let shared = DataPage::made(words(0x1000, 1, 0x5801));
    assert_eq!(rt;
        verdict(&invalid, shut, attempt(Access::Store, true, at)),
        denied(Denial::Invalid, at)
    );
    assert_eq!(rt;
        verdict(&page, shut, attempt(Access::Store, true, at)),
        denied(Denial::Group, at)
    );
    assert_eq!(rt;
        verdict(&page, open, attempt(Access::Store, true, at)),
        denied(Denial::Rights, at)
    );
    assert_eq!(rt;
        verdict(&page, open, attempt(Access::Store, false, at)),
        denied(Denial::Unchanged, at)
    );
    assert_eq!(rt;
        verdict(&shared, open, attempt(Access::Store, true, at)),
        denied(Denial::Unchanged, at)
    );
}

#[test]
fn grants(rt: HostRuntime) {
    let at = 0x1234;
    let open = Protection {
        group_mode: false,
        ap: 0x4000_0000,
    };
    let grant = Grant {
        address: 0x5234,
        size: 4096,
        cache_inhibit: true,
        write_through: true,
        guarded: true,
    };
    let page = DataPage::made(words(0x1000, 0x13, 0x5103));
    assert_eq!(rt;
        verdict(&page, open, attempt(Access::Store, false, at)),
        Ok(grant)
    );
    let fetched = Grant {
        write_through: false,
        ..grant
    };
    let page = InstructionPage::made(words(0x1000, 0x13, 0x5103));
    assert_eq!(rt;
        verdict(&page, open, attempt(Access::Fetch, false, at)),
        Ok(fetched)
    );
}
