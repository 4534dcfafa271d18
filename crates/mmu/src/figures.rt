// The worked values of the rules.
ghost use Rattle.std.specs.Prelude.{◌≡◌, length};
ghost use Rattle.mmu.specs.Figures.{worked, Worked};

// How many worked values there are. All of them hold of the definitions that the contracts cite.
#[tactic(auto, using(crate::proofs::Worked::they_hold))]
pub fn worked_values() -> usize
    ensures count { result ≡ length worked }
    ensures hold { Worked }
{
    14
}
