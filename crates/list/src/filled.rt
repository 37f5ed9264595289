// What a call that fills an output tells where it is accepted.
use flow::Totals;

// The totals of the flow that was written or read back, and the length written.
#[derive(Clone, Copy, Debug, PartialEq, Eq)]
pub struct Filled {
    pub totals: Totals,
    pub length: u64,
}
