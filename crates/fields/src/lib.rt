// The field rules of documents 01 and 02, for callers with and without a flow: digit fields, amounts,
// dates, the one digit writer, two tests on bytes and one on cents.
//
// No public function has a `requires`: whatever bytes it is given, it ends with an answer, and its
// contract says which. Only `write_digits` changes a byte. A refusal is its reason alone.
#![tactic(auto)]

mod amount;
mod calendar;
mod compare;
mod date;
mod digits;
mod limits;

pub use amount::{is_amount, read_amount};
pub use calendar::Day;
pub use compare::{all_blank, equal};
pub use date::read_date;
pub use digits::{read_digits, write_digits};
