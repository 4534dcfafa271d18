// The verdict on a match.
ghost use Rattle.std.specs.Prelude.{◌≡◌};
ghost use Rattle.mmu.specs.Verdict.{permits, unmarked, through_for, page_gives};

use crate::attempt::Attempt;
use crate::rights::{Access, Protection, Ruling, allowed};
use calls::answer::Grant;
use calls::fault::{Denial, Fault};
use tlb::page::{Common, Page};

impl Access {
    // Whether it is a store to a page that is not marked changed.
    fn unmarked(self, changed: bool) -> bool
        ensures { result ≡ unmarked self changed }
    {
        matches!(self, Access::Store) && !changed
    }

    // The write-through that it is granted of a page's, or of the default.
    pub fn through(self, write_through: bool) -> bool
        ensures { result ≡ through_for self write_through }
    {
        !matches!(self, Access::Fetch) && write_through
    }
}

// Whether a page is valid, and its group and its rights allow an access.
fn permitted(page: &Common, protection: Protection, attempt: Attempt) -> Result<(), Fault>
    ensures { result ≡ permits page.now protection attempt.problem attempt.access attempt.address }
{
    if !page.valid {
        return Err(attempt.denied(Denial::Invalid));
    }
    match protection.ruling(page.group, attempt.problem) {
        Ruling::Refuse => Err(attempt.denied(Denial::Group)),
        Ruling::Exempt => Ok(()),
        Ruling::Test { problem } => {
            if allowed(page.rights, problem, attempt.access) {
                Ok(())
            } else {
                Err(attempt.denied(Denial::Rights))
            }
        }
    }
}

// What a page gives to an access that matches it.
#[tactic(auto, unfolding(crate::specs::Verdict::gives))]
pub fn verdict<P: Page>(page: &P, protection: Protection, attempt: Attempt) -> Result<Grant, Fault>
    ensures { result ≡ page_gives P.Page.shape page.now protection attempt.problem attempt.access attempt.address }
{
    let common = page.common();
    permitted(&common, protection, attempt)?;
    if attempt.access.unmarked(page.changed()) {
        return Err(attempt.denied(Denial::Unchanged));
    }
    Ok(Grant {
        address: common.physical(attempt.address),
        size: common.size.bytes(),
        cache_inhibit: common.cache_inhibit,
        write_through: attempt.access.through(page.write_through()),
        guarded: common.guarded,
    })
}
