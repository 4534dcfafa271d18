// The promises over every life of a twin.
ghost use Rattle.std.specs.Prelude.{◌≡◌};
ghost use Rattle.twin.specs.Example.{Example};
ghost use Rattle.twin.specs.Promises.{Promises};

// How many promises there are: grants from their sources, settled resolves from the tables, pages that stay.
// They hold of every start and every list of requests, and the example shows lives of which they speak.
#[tactic(auto, using(crate::proofs::Promised::promises, crate::proofs::Examples::example))]
pub fn promise_count() -> u8
    ensures count { result ≡ 3 }
    ensures promises { Promises }
    ensures example { Example }
{
    3
}
