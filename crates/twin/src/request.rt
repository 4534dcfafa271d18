// What can be asked of a twin, looks included, and what it replies.
ghost use Rattle.std.specs.Prelude.{◌≡◌};
ghost use Rattle.twin.specs.Look.{look_as_reply};

use crate::look::Seen;
use calls::answer::Answer;
use calls::call::Call;
use calls::fault::Fault;

#[derive(Clone, Copy, Debug, PartialEq, Eq)]
pub enum Request {
    Call(Call),
    // a look at a slot; kind 0 is instruction, 1 data. Numbers are as they were given
    Look { kind: u32, slot: u32 },
}

#[derive(Clone, Copy, Debug, PartialEq, Eq)]
pub enum Reply {
    Answer(Answer),
    // what a look saw
    Saw(Seen),
}

// What a look saw, or why it is refused.
impl From<Result<Seen, Fault>> for Reply {
    ghost from_gives = { λ r a. a ≡ look_as_reply r };

    fn from(res: Result<Seen, Fault>) -> Reply {
        match res {
            Ok(seen) => Reply::Saw(seen),
            Err(fault) => Reply::Answer(Answer::Refused(fault)),
        }
    }
}
