// The search: the lowest slot whose entry matches.
ghost use Rattle.std.specs.Prelude.{◌≡◌, ℕ, ◌<◌, Bool, length, IfSome};
ghost use Rattle.tlb.specs.Search.{lowest};

// What can say whether it matches an address in the current space.
pub trait Matching {
    // the answer, by address and current space
    ghost answers: { Self → ℕ → ℕ → Bool };

    // Address and space go together here and in `find` alone.
    fn matches(&self, address: u32, space: u32) -> bool
        ensures { result ≡ answers self.now address space };
}

// The lowest slot that matches: a loop over the slots with their index; nothing is counted by hand.
pub fn find<T: Matching>(slots: &[T], address: u32, space: u32) -> Option<usize>
    ensures found { result ≡ lowest (λ x. T.Matching.answers x address space) slots.now }
    ensures within { IfSome result (λ i. i < length slots.now) }
{
    for (slot, entry) in slots.iter().enumerate() {
        if entry.matches(address, space) {
            return Some(slot);
        }
    }
    None
}
