// Resolves: accesses that walk the tables where they would miss.
ghost use Rattle.std.specs.Prelude.{◌≡◌};
ghost use Rattle.calls.specs.Answer.{grant_answer};
ghost use Rattle.mmu.specs.Rights.{access_of};
ghost use Rattle.twin.specs.Call.{resolve_outcome};
ghost use Rattle.twin.specs.declared.request.Reply.TheVariants as replies;
ghost use Rattle.twin.specs.Resolve.{walked, first_written, walk_result, walk_unit};

use crate::unit::Mmu;
use board::memory::Memory;
use calls::answer::Grant;
use calls::fault::Fault;
use mmu::rights::Access;
use mmu::walk::Table;
use tlb::register::{Kind, Register};

impl Mmu {
    // A first word that passed goes to MD_TWC, for a fetch to MI_TWC too.
    #[tactic(auto, using(crate::proofs::Resolving::first_kept))]
    fn keep_first(&mut self, kind: Kind, word: u32)
        ensures { self.new ≡ first_written kind word self.old }
    {
        let data = Register::Twc(Kind::Data);
        self.set(data, data.keep(word));
        let own = Register::Twc(kind);
        self.set(own, own.keep(word));
    }

    // Walks the tables for an address, and loads what they give. Where the walk stops, what it has kept stays.
    #[tactic(auto, using(crate::proofs::Resolving::stopped_first, crate::proofs::Resolving::stopped_second, crate::proofs::Resolving::passed_both))]
    fn walk<M: Memory>(&mut self, memory: &M, kind: Kind, address: u32) -> Result<(), Fault>
        ensures answer { result ≡ walk_result (walked (M.Memory.meaning memory.now) self.old.twb address) }
        ensures left { self.new ≡ walk_unit kind (walked (M.Memory.meaning memory.now) self.old.twb address) self.old }
    {
        let first = Table::First.word(memory, self.twb, address)?;
        self.keep_first(kind, first);
        let second = Table::Second.word(memory, first, address)?;
        self.load(kind, second);
        Ok(())
    }

    // An access that walks and loads where it would miss. A refused resolve keeps the registers and the load it had made.
    pub fn resolve<M: Memory>(
        &mut self,
        memory: &M,
        kind: u32,
        address: u32,
    ) -> Result<Option<Grant>, Fault>
        ensures answer { replies.Answer (grant_answer result) ≡ (resolve_outcome (access_of kind) kind address self.old (M.Memory.meaning memory.now)).reply }
        ensures left { self.new ≡ (resolve_outcome (access_of kind) kind address self.old (M.Memory.meaning memory.now)).unit }
    {
        let access = Access::try_from(kind)?;
        let found = self.answer(access, address)?;
        if found.is_some() {
            return Ok(found);
        }
        let side = access.kind();
        self.miss(side, address);
        self.miss(Kind::Data, address);
        self.walk(memory, side, address)?;
        self.answer(access, address)
    }
}
