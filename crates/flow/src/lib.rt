// Reading a flow of M.Av. payment requests: the order of its records, the walk over them, and `read`,
// which accepts a flow exactly where document 01 does and else gives its first fault; `find` and
// `disposition`, which say where disposition k stands in an accepted flow; `find_with_totals`, which reads
// and finds at once; and `next_opening`, which goes from one disposition to the next.
//
// The flow is read in place: each record is handed to the record rules as the part of 120 bytes that
// it is, and nothing of it is copied. No public function has a `requires`, and none changes a byte.
#![tactic(auto)]

mod answer;
mod casts;
mod fast_path;
mod limits;
mod location;
mod order;
mod reader;
mod walk;

pub use answer::{NumberedRefusal, Refusal, Totals, refusal_of_call, refused_call};
pub use casts::{as_count, as_index};
pub use location::{Location, WithTotals, disposition, find, find_with_totals, next_opening};
pub use order::{Due, Place};
pub use reader::{first_company, read};
pub use walk::Walk;
