// One line of a script.
use calls::call::Call;
use calls::fault::Fault;

// What a line reads as: its number, counted from 1, and its call, or why there is none.
// Number 0 stands for the script as a whole.
#[derive(Clone, Copy, Debug, PartialEq, Eq)]
pub struct Line {
    pub number: u32,
    pub call: Result<Call, Fault>,
}
