// The fast path of the reader. Most records are right, and of seven records six stand after the 14 of
// their disposition and have little to keep. A loop of its own passes over those that pass the quick test
// of the record rules; where that does not settle it, the plain path decides: `Walk::judge`.
// So no refusal comes from here.
ghost use Rattle.std.specs.Prelude.{◌/◌, ◌≤◌, ◌≡◌, length};
ghost use Rattle.flow.specs.FastPath.{Inside, PassedOver};

use crate::order::{Due, kind_due};
use crate::walk::Walk;
use records::{RecordKind, field};

// The walk after the records that were passed over, and the index of the next one.
#[derive(Clone, Copy, Debug, PartialEq, Eq)]
pub(crate) struct Passed {
    pub walk: Walk,
    pub index: usize,
}

// Passes over the records from index `from` on, up to the first that fails the quick test. The
// record before them is right. An index and no iterator goes along: this loop and the plain one take up
// where the other has stopped, and here the record before is looked at too.
pub(crate) fn pass_over(flow: &[u8], from: usize, walk: Walk) -> Passed
    requires le_from { 1 ≤ from }
    requires from_in_bounds { from ≤ length flow.now / 120 }
    ensures { PassedOver flow.now from walk result.index result.walk }
{
    let mut here = walk;
    let mut i = from;
    while i < flow.len() / 120 {
        let before = &flow[120 * (i - 1)..120 * (i - 1) + 120];
        let rec = &flow[120 * i..120 * i + 120];
        let Some(kind) = kind_inside(here.place.due, rec) else {
            break;
        };
        if !records::passes_quick_test(rec, kind, field(before, 4, 10)) {
            break;
        }
        here = here.pass(kind);
        i += 1;
    }
    Passed {
        walk: here,
        index: i,
    }
}

// The kind of a record where a disposition goes on.
fn kind_inside(due: Due, rec: &[u8]) -> Option<RecordKind>
    ensures { Inside due rec.now result }
{
    match due {
        Due::OnlyIm | Due::OnlyR14 | Due::R14OrEf | Due::Nothing => None,
        _ => kind_due(due, rec),
    }
}
