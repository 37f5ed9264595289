// What differs between two evenings' flows (document 02, E7): `compare` gives the shortest account of which
// requests were dropped and which were added, `find_line` what one of its lines tells, and `line` the record
// 14 that it speaks of, as a part of one of the two flows.
//
// Both flows are judged before anything else, and read in place. A request is compared by what its list items
// carry, at most once for each two, and from there on by numbers: requests that are the same
// have the same number. The working memory holds, for each two places, how many requests can still be kept
// from there on; it is zero after an accepted call. No public function has a `requires`, and a refused call
// changes nothing.
#![tactic(auto)]

mod account;
mod account_line;
mod comparison;
mod limits;
mod pair;
mod requests;
mod table;

pub use account_line::{AccountLine, find_line, line};
pub use comparison::{Compared, Lines, compare};
