// Amendments of a flow in the caller's memory (document 01, "Questions and changes"): `change` gives a
// disposition another amount, `withdraw` takes a disposition out.
//
// A flow is judged whole before a byte of it is changed. The counts and the sum that the trailer gets
// come from the numbers that the reader has judged and from the call, never from bytes that were
// moved: a block copied twice could not agree with the trailer. No public function has a `requires`,
// and a refused call changes no byte.
#![tactic(auto)]

mod amount;
mod withdrawal;

pub use amount::change;
pub use withdrawal::{Withdrawn, withdraw};
