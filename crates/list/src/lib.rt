// Our request list (document 01): `write` turns a list into the flow that it encodes, and `read_back`
// a flow into its list; `carries_same` says whether two records have the same item.
//
// A list is judged before a byte of the output is written: each record is built in an array of 120
// blanks and handed to the rules and the walk that read a flow. No public function has a `requires`; a
// refused call changes no byte, and an accepted one none beyond the length that it answers.
#![tactic(auto)]

mod encode;
mod filled;
mod item;
mod limits;
mod meant;
mod own_list;
mod same;
mod table;
mod writer;

pub use filled::Filled;
pub use own_list::read_back;
pub use same::carries_same;
pub use writer::write;
