// One record of a known kind, judged.
ghost use Rattle.std.specs.Prelude.{◌≡◌};
ghost use Rattle.records.specs.Context.{header_of, context};
ghost use Rattle.records.specs.RecordVerdict.{judged_verdict};
ghost use Rattle.records.specs.Judge.{judge_as};

use crate::coordinates::judge_coordinates;
use crate::detail::{judge_control, judge_numbered, judge_with_text};
use crate::disposition::judge_disposition;
use crate::flow_kind::{FlowKind, or_requests};
use crate::header::judge_header;
use crate::judged::{Counts, Fault, Record};
use crate::kind::RecordKind;
use crate::trailer::judge_trailer;
use refusals::Reason;

// The first fault of a record of the kind, or its cents. `header` is the flow's IM, of which the rules look
// at no other position than `header_of` names: what stands elsewhere in it may be anything. `company` is the
// company code of the first record 14, empty where none came before this record; `found` is the kind of
// flow, where a record 14 before this one has told it. The four are lent apart, since `EntryPoints` has a
// law on this and on `Walk::judge`.
pub fn judge(
    rec: &[u8],
    kind: RecordKind,
    counts: Counts,
    header: &[u8],
    company: &[u8],
    found: Option<FlowKind>,
) -> Result<Record, Fault>
    ensures { judged_verdict result ≡ judge_as kind
        (context (header_of header.now) company.now found counts)
        rec.now }
{
    let Some(rec) = rec.as_array::<120>() else {
        return Err(Fault {
            reason: Reason::WrongLength,
            position: 0,
        });
    };
    let n = counts.dispositions;
    match kind {
        RecordKind::Im => judge_header(rec),
        RecordKind::R14 => judge_disposition(rec, n, header, company, found),
        RecordKind::R16 => judge_coordinates(rec, n, header),
        RecordKind::R20 => judge_with_text(rec, kind, n, 34),
        RecordKind::R30 => judge_with_text(rec, kind, n, 40),
        RecordKind::R40 => judge_numbered(rec, kind, n),
        RecordKind::R50 => judge_numbered(rec, kind, n),
        RecordKind::R59 => judge_with_text(rec, kind, n, 65),
        RecordKind::R51 => judge_numbered(rec, kind, n),
        RecordKind::R70 => judge_control(rec, n),
        RecordKind::Ef => judge_trailer(rec, counts, header, or_requests(found)),
    }
}
