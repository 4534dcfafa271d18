// A twin: one unit over one memory.
ghost use Rattle.std.specs.Prelude.{◌≡◌};
ghost use Rattle.board.specs.Pile.{pile_left};
ghost use Rattle.calls.specs.Answer.{raised};
ghost use Rattle.board.specs.Memory.{peeked, poked, stored};
ghost use Rattle.twin.specs.Call.{call_outcome, outcome};
ghost use Rattle.twin.specs.Bytes.{call_pile, pile_by};
ghost use Rattle.twin.specs.declared.request.Reply as replies;
ghost use Rattle.twin.specs.Unit.{new_unit};

use crate::request::{Reply, Request};
use crate::unit::{Mmu, Mode};
use board::memory::Memory;
use calls::answer::Answer;
use calls::call::Call;
use calls::fault::Fault;

// That places stay (`places`) and that the reference is the lender's (`lent`) is said of each call that could change
// them: both speak of a twin before and after it, which no type can.
#[derive(Drop)]
pub struct Twin<'a, M> {
    unit: Mmu,
    memory: &'a mut M,
}

impl<'a, M: Memory> Twin<'a, M> {
    // A new unit over a memory.
    pub fn new(memory: &'a mut M) -> Twin<'a, M>
        ensures unit { result.unit ≡ new_unit }
        ensures memory { result.memory.now ≡ memory.old }
        ensures lent { result.memory.ghost_name ≡ memory.entry.ghost_name }
    {
        Twin {
            unit: Mmu::new(),
            memory,
        }
    }

    fn peek(&self, address: u32) -> Result<u32, Fault>
        ensures { result ≡ raised (peeked (M.Memory.meaning self.now.memory.now) address) }
    {
        Ok(self.memory.peek(address)?)
    }

    fn poke(&mut self, address: u32, word: u32) -> Result<(), Fault>
        ensures answer { result ≡ raised (poked (M.Memory.meaning self.old.memory.now) address) }
        ensures unit { self.new.unit ≡ self.old.unit }
        ensures left { M.Memory.meaning self.new.memory.now ≡ stored (M.Memory.meaning self.old.memory.now) address word }
        ensures bytes { M.Memory.lent self.new.memory.now ≡ pile_left (poked (M.Memory.meaning self.old.memory.now) address) (M.Memory.lent self.old.memory.now) (M.Memory.place self.old.memory.now address) word }
        ensures places { M.Memory.place self.new.memory.now ≡ M.Memory.place self.old.memory.now }
        ensures lent { self.new.memory.ghost_name ≡ self.old.memory.ghost_name }
    {
        self.memory.poke(address, word)?;
        Ok(())
    }

    // One call.
    pub fn call(&mut self, call: Call) -> Answer
        ensures answer { replies.Reply.Answer result ≡ (call_outcome call self.old.unit (M.Memory.meaning self.old.memory.now)).reply }
        ensures unit { self.new.unit ≡ (call_outcome call self.old.unit (M.Memory.meaning self.old.memory.now)).unit }
        ensures left { M.Memory.meaning self.new.memory.now ≡ (call_outcome call self.old.unit (M.Memory.meaning self.old.memory.now)).memory }
        ensures bytes { M.Memory.lent self.new.memory.now ≡ call_pile call (M.Memory.meaning self.old.memory.now) (M.Memory.place self.old.memory.now) (M.Memory.lent self.old.memory.now) }
        ensures places { M.Memory.place self.new.memory.now ≡ M.Memory.place self.old.memory.now }
        ensures lent { self.new.memory.ghost_name ≡ self.old.memory.ghost_name }
    {
        match call {
            Call::Poke { address, word } => Answer::from(self.poke(address, word)),
            Call::Peek { address } => Answer::from(self.peek(address)),
            Call::Write { register, word } => Answer::from(self.unit.write(register, word)),
            Call::Read { register } => Answer::from(self.unit.read(register)),
            Call::Mode {
                problem,
                instruction,
                data,
            } => {
                self.unit.set_mode(Mode {
                    problem,
                    instruction,
                    data,
                });
                Answer::Done
            }
            Call::Access { kind, address } => Answer::from(self.unit.access(kind, address)),
            Call::Resolve { kind, address } => Answer::from(
                self.unit.resolve(&*self.memory, kind, address),
            ),
            Call::Drop { address } => {
                self.unit.drop_page(address);
                Answer::Done
            }
            Call::DropAll => {
                self.unit.drop_all();
                Answer::Done
            }
            Call::Tally => Answer::Value(self.unit.tally()),
        }
    }

    // One request: a call or a look.
    pub fn ask(&mut self, request: Request) -> Reply
        ensures reply { result ≡ (outcome request self.old.unit (M.Memory.meaning self.old.memory.now)).reply }
        ensures unit { self.new.unit ≡ (outcome request self.old.unit (M.Memory.meaning self.old.memory.now)).unit }
        ensures left { M.Memory.meaning self.new.memory.now ≡ (outcome request self.old.unit (M.Memory.meaning self.old.memory.now)).memory }
        ensures bytes { M.Memory.lent self.new.memory.now ≡ pile_by request (M.Memory.meaning self.old.memory.now) (M.Memory.place self.old.memory.now) (M.Memory.lent self.old.memory.now) }
        ensures places { M.Memory.place self.new.memory.now ≡ M.Memory.place self.old.memory.now }
        ensures lent { self.new.memory.ghost_name ≡ self.old.memory.ghost_name }
    {
        match request {
            Request::Call(call) => Reply::Answer(self.call(call)),
            Request::Look { kind, slot } => Reply::from(self.unit.look(kind, slot)),
        }
    }

    // The unit as it is left. The memory goes back to its lender.
    pub fn end(self) -> Mmu
        ensures unit { result ≡ self.entry.unit }
        ensures same { self.exit.1.0.now ≡ self.entry.memory.now }
    {
        let Twin { unit, memory: _ } = self;
        unit
    }
}
