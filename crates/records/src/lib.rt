// The rules of one M.Av. record of 120 bytes (document 01, table of checks): its type, its fields by
// position, `judge`, which gives its first fault, and `passes_quick_test`, which sees by a few tests that
// most records have none.
//
// A record is judged by its own bytes. What a rule needs from elsewhere in the flow, the header,
// the company code, the kind of flow and the counts so far, is handed in. No public function has a
// `requires`, and none but `write_number` changes a byte.
#![tactic(auto)]

mod bytes;
mod constants;
mod coordinates;
mod detail;
mod disposition;
mod flow_kind;
mod header;
mod judged;
mod kind;
mod limits;
mod position;
mod quick_test;
mod record;
mod rules;
mod trailer;

pub use bytes::bad_byte;
pub use constants::{AMOUNT_FIRST, AMOUNT_LAST, COMPANY_FIRST, COMPANY_LAST, CURRENCY};
pub use flow_kind::{
    FlowKind, causale_of, kind_in, or_requests, sign_of, total_at, total_first, total_last,
};
pub use judged::{Counts, Fault, Record};
pub use kind::{RecordKind, has_type, heads, is_opening, opens, type_of};
pub use limits::{MOST_CENTS, MOST_RECORDS};
pub use position::{field, seven_digits, write_number};
pub use quick_test::passes_quick_test;
pub use record::judge;
pub use rules::amount;
