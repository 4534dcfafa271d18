// What TLB entries are loaded from.

// The words of EPN and TWC, and the word that RPN takes.
#[derive(Clone, Copy, Debug, PartialEq, Eq)]
pub struct Source {
    pub epn: u32,
    pub twc: u32,
    pub rpn: u32,
}
