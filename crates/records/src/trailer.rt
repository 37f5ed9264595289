// Record EF, the trailer.
ghost use Rattle.std.specs.Prelude.{◌≡◌};
ghost use Rattle.records.specs.Checks.{trailer_checks};
ghost use Rattle.records.specs.Context.{header_of};
ghost use Rattle.records.specs.RecordVerdict.{right, first_fault, judged_verdict};
ghost use Rattle.records.specs.declared.kind.RecordKind.TheVariants.{Ef};

use crate::flow_kind::{FlowKind, total_at};
use crate::judged::{Counts, Fault, Record};
use crate::kind::RecordKind;
use crate::rules::{as_in_header, digits_equal_to};
use refusals::Reason;

pub(crate) fn judge_trailer(
    rec: &[u8; 120],
    counts: Counts,
    header: &[u8],
    flow: FlowKind,
) -> Result<Record, Fault>
    ensures { judged_verdict result ≡ first_fault
        (trailer_checks (header_of header.now) flow counts rec.now)
        (right Ef 0) }
{
    as_in_header(rec, 4, 8, header)?;
    as_in_header(rec, 9, 13, header)?;
    as_in_header(rec, 14, 19, header)?;
    as_in_header(rec, 20, 39, header)?;
    digits_equal_to(rec, 46, 52, counts.dispositions, Reason::WrongCount)?;
    let asked = total_at(flow, 53, counts.cents);
    digits_equal_to(rec, 53, 67, asked, Reason::WrongTotal)?;
    let recalled = total_at(flow, 68, counts.cents);
    digits_equal_to(rec, 68, 82, recalled, Reason::WrongTotal)?;
    digits_equal_to(rec, 83, 89, counts.records, Reason::WrongRecords)?;
    as_in_header(rec, 114, 114, header)?;
    Ok(Record {
        kind: RecordKind::Ef,
        cents: 0,
    })
}
