// Whether two records have the same item, so that two requests can be compared where they stand.
ghost use Rattle.std.specs.Prelude.{◌≡◌};
ghost use Rattle.list.specs.Same.{is_alike, carries_same};
ghost use Rattle.list.specs.Table.{carried as Table-carried};

use crate::table::{ItemKind, row_in};
use records::{FlowKind, field};

// Whether two records of flows of the kind have one type of the table and the same bytes at every position
// that it carries. What is not carried, as the number at 4-10, does not count.
pub fn carries_same(rec: &[u8], other: &[u8], flow: FlowKind) -> bool
    ensures { result ≡ carries_same flow rec.now other.now }
{
    let Some(kind) = row_in(rec, flow) else {
        return false;
    };
    records::has_type(other, kind.record()) && alike(rec, other, kind)
}

// Whether they have the same bytes at the positions that the kind carries.
fn alike(rec: &[u8], other: &[u8], kind: ItemKind) -> bool
    ensures { result ≡ is_alike (Table-carried kind) rec.now other.now }
{
    kind.carried().iter().all(|(first, last)| fields::equal(
        field(rec, *first, *last),
        field(other, *first, *last),
    ))
}
