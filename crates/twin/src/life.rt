// Lives: a list of requests to a new twin.
ghost use Rattle.std.specs.Prelude.{◌≡◌, ◌+◌, ◌≤◌, ◌++◌, length, IfOk, vec_len, vec_capacity, MatchResult};
ghost use Rattle.board.specs.Ram.{ram};
ghost use Rattle.twin.specs.Bytes.{pile_after, ram_after};
ghost use Rattle.twin.specs.Example.{Example};
ghost use Rattle.twin.specs.Life.{begin, after, replies, state_of};
ghost use Rattle.twin.specs.Promises.{Promises};
ghost use Rattle.twin.specs.Reload.{ReloadLaw, ReloadExample};

use crate::request::{Reply, Request};
use crate::twin::Twin;
use crate::unit::Mmu;
use board::memory::Memory;
use board::ram::Ram;
use std::alloc::{AllocError, Global};

// Asks all of a list, into memory that is there already.
fn ask_all<M: Memory>(twin: &mut Twin<M>, requests: &[Request], out: &mut Vec<Reply>)
    requires { vec_len out.old + length requests.now ≤ vec_capacity out.old }
    ensures replies { out.new.items ≡ out.old.items ++ replies (state_of twin.old.unit (M.Memory.meaning twin.old.memory.now)) requests.now }
    ensures state { state_of twin.new.unit (M.Memory.meaning twin.new.memory.now) ≡ after (state_of twin.old.unit (M.Memory.meaning twin.old.memory.now)) requests.now }
    ensures bytes { M.Memory.lent twin.new.memory.now ≡ pile_after (state_of twin.old.unit (M.Memory.meaning twin.old.memory.now)) (M.Memory.place twin.old.memory.now) (M.Memory.lent twin.old.memory.now) requests.now }
    ensures places { M.Memory.place twin.new.memory.now ≡ M.Memory.place twin.old.memory.now }
    ensures lent { twin.new.memory.ghost_name ≡ twin.old.memory.ghost_name }
{
    for request in requests {
        let _ = out.push(twin.ask(*request));
    }
}

// What a life leaves: the unit, and a reply to each request.
#[derive(Drop)]
pub struct Life {
    pub unit: Mmu,
    pub replies: Vec<Reply>,
}

// A new twin over a memory, and its life: every request of the list, in order. Memory for the replies is reserved before
// the first of them; where it is wanting, nothing is asked, and every byte is as it was.
pub fn live<M: Memory>(
    heap: Global,
    memory: &mut M,
    requests: &[Request],
) -> Result<Life, AllocError>
    ensures replies { IfOk result (λ l. l.replies.items ≡ replies (begin (M.Memory.meaning memory.old)) requests.now) }
    ensures unit { IfOk result (λ l. l.unit ≡ (after (begin (M.Memory.meaning memory.old)) requests.now).unit) }
    ensures left { MatchResult result (λ _. M.Memory.meaning memory.new ≡ (after (begin (M.Memory.meaning memory.old)) requests.now).memory) (λ _. M.Memory.meaning memory.new ≡ M.Memory.meaning memory.old) }
    ensures bytes { MatchResult result (λ _. M.Memory.lent memory.new ≡ pile_after (begin (M.Memory.meaning memory.old)) (M.Memory.place memory.old) (M.Memory.lent memory.old) requests.now) (λ _. M.Memory.lent memory.new ≡ M.Memory.lent memory.old) }
    ensures places { M.Memory.place memory.new ≡ M.Memory.place memory.old }
    ensures promises { Promises }
    ensures example { Example }
    ensures reload { ReloadLaw }
    ensures reload_example { ReloadExample }
{
    let mut replies = Vec::with_capacity(heap, requests.len())?;
    let mut twin = Twin::new(memory);
    ask_all(&mut twin, requests, &mut replies);
    let unit = twin.end();
    Ok(Life { unit, replies })
}

// A life over RAM of these bytes, which are the lender's own: accepted pokes change them, four at a time, and nothing else does.
pub fn live_in_ram(heap: Global, bytes: &mut [u8], requests: &[Request]) -> Result<Life, AllocError>
    ensures replies { IfOk result (λ l. l.replies.items ≡ replies (begin (ram bytes.old)) requests.now) }
    ensures unit { IfOk result (λ l. l.unit ≡ (after (begin (ram bytes.old)) requests.now).unit) }
    ensures bytes { MatchResult result (λ _. bytes.new ≡ ram_after bytes.old requests.now) (λ _. bytes.new ≡ bytes.old) }
    ensures promises { Promises }
{
    let mut memory = Ram::new(bytes);
    live(heap, &mut memory, requests)
}
