// Accesses.
ghost use Rattle.std.specs.Prelude.{◌≡◌};
ghost use Rattle.board.specs.Memory.{Meaning};
ghost use Rattle.calls.specs.Answer.{grant_answer};
ghost use Rattle.twin.specs.Call.{access_outcome};
ghost use Rattle.twin.specs.declared.request.Reply.TheVariants as replies;
ghost use Rattle.mmu.specs.Rights.{access_of, kind_of};
ghost use Rattle.tlb.specs.Entry.{entry_of};
ghost use Rattle.twin.specs.Access.{protection, plain_grant, slot_found, found_answer, half_answer, access_answer};
ghost use Rattle.twin.specs.Access.{translates};

use crate::unit::{Half, Mmu};
use calls::answer::Grant;
use calls::fault::Fault;
use mmu::attempt::Attempt;
use mmu::rights::{Access, Protection};
use mmu::verdict::verdict;
use tlb::page::Page;
use tlb::register::Kind;
use tlb::search::find;

impl<P: Page> Half<P> {
    fn protection(&self) -> Protection
        ensures { result ≡ protection self.now }
    {
        Protection {
            group_mode: self.control().group_mode(),
            ap: self.registers.ap,
        }
    }

    // The grant with translation off.
    fn plain(&self, attempt: Attempt) -> Grant
        ensures { result ≡ plain_grant self.now attempt.access attempt.address }
    {
        let control = self.control();
        Grant {
            address: attempt.address,
            size: 0,
            cache_inhibit: control.default_inhibit(),
            write_through: attempt.access.through(control.default_write_through()),
            guarded: false,
        }
    }

    // The answer with translation on: by the lowest slot that matches, or none for a miss.
    fn translated(&self, attempt: Attempt) -> Result<Option<Grant>, Fault>
        ensures { grant_answer result ≡ found_answer P.Page.shape self.now (entry_of P.Page.shape.made 0 0 0) (slot_found P.Page.shape self.now attempt.address attempt.space) attempt.problem attempt.access attempt.address }
    {
        let Some(slot) = find(&self.slots, attempt.address, attempt.space) else {
            return Ok(None);
        };
        let page = self.slots[slot].page;
        let grant = verdict(&page, self.protection(), attempt)?;
        Ok(Some(grant))
    }

    // The answer with translation on or off.
    fn answer(&self, on: bool, attempt: Attempt) -> Result<Option<Grant>, Fault>
        ensures { grant_answer result ≡ half_answer P.Page.shape self.now on attempt.problem attempt.space attempt.access attempt.address }
    {
        if on {
            self.translated(attempt)
        } else {
            Ok(Some(self.plain(attempt)))
        }
    }
}

impl Mmu {
    // What an access is answered, before it leaves anything.
    pub(crate) fn answer(&self, access: Access, address: u32) -> Result<Option<Grant>, Fault>
        ensures { grant_answer result ≡ access_answer (translates (kind_of access) self.now.mode) (kind_of access) self.now access address }
    {
        let kind = access.kind();
        let on = self.mode.translates(kind);
        let attempt = Attempt {
            access,
            address,
            problem: self.mode.problem,
            space: self.space(),
        };
        match kind {
            Kind::Instruction => self.instruction.answer(on, attempt),
            Kind::Data => self.data.answer(on, attempt),
        }
    }

    // An access: fetch (0), load (1) or store (2). No grant is a miss, which sets the kind's EPN.
    pub fn access(&mut self, kind: u32, address: u32) -> Result<Option<Grant>, Fault>
        ensures answer { (m : Meaning) → replies.Answer (grant_answer result) ≡ (access_outcome (access_of kind) kind address self.old m).reply }
        ensures left { (m : Meaning) → self.new ≡ (access_outcome (access_of kind) kind address self.old m).unit }
    {
        let access = Access::try_from(kind)?;
        let grant = self.answer(access, address)?;
        if grant.is_none() {
            self.miss(access.kind(), address);
        }
        Ok(grant)
    }
}
