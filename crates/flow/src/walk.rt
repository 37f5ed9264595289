// The walk over a flow: its state goes in by value and comes back after the next record.
ghost use Rattle.std.specs.Prelude.{◌+◌, min, not, ◌≡◌};
ghost use Rattle.records.specs.Context.{header_of};
ghost use Rattle.records.specs.RecordVerdict.{judged_verdict};
ghost use Rattle.records.specs.Limits.{count_limit};
ghost use Rattle.flow.specs.Judge.{walk_totals};
ghost use Rattle.flow.specs.FastPath.{at_place};
ghost use Rattle.flow.specs.Order.{is_due, may_close, permitted, place_after};
ghost use Rattle.flow.specs.Walking.{kind_after, step, saturated, dispositions_with, judge_record};
ghost use Rattle.flow.specs.Walking.{start as Walking-start};

use crate::answer::Totals;
use crate::limits::{CENTS_LIMIT, COUNT_LIMIT};
use crate::order::{Due, Place, kind_due, place_after};
use records::{Counts, Fault, FlowKind, Record, RecordKind};
use refusals::Reason;

// What may come next; the kind of flow, unknown until the first record 14; the dispositions so far and
// the cents so far. The counts stop one above what the trailer's digits hold, so that every state has a
// next one; of an accepted flow they are exact.
#[derive(Clone, Copy, Debug, PartialEq, Eq)]
pub struct Walk {
    pub place: Place,
    pub kind: Option<FlowKind>,
    pub dispositions: u64,
    pub cents: u64,
}

impl Walk {
    // Before the header.
    pub fn start() -> Walk
        ensures { result ≡ Walking-start }
    {
        Walk {
            place: Place {
                due: Due::OnlyIm,
                further: 0,
            },
            kind: None,
            dispositions: 0,
            cents: 0,
        }
    }

    // The first fault of the flow's n-th record, or its kind and cents. `header` is the flow's IM, and
    // what stands elsewhere in it than `header_of` names may be anything; `company` is the company code
    // of the first record 14, empty where none came before this record.
    pub fn judge(self, rec: &[u8], n: u64, header: &[u8], company: &[u8]) -> Result<Record, Fault>
        ensures { judged_verdict result ≡ judge_record
            (header_of header.now) self company.now n rec.now }
    {
        if rec.len() != 120 {
            return Err(Fault {
                reason: Reason::WrongLength,
                position: 0,
            });
        }
        let bad = records::bad_byte(rec);
        if bad != 0 {
            return Err(Fault {
                reason: Reason::BadByte,
                position: bad,
            });
        }
        let Some(kind) = kind_due(self.place.due, rec) else {
            return Err(Fault {
                reason: Reason::WrongType,
                position: 2,
            });
        };
        let counts = Counts {
            dispositions: self.dispositions_with(kind),
            cents: self.cents,
            records: n,
        };
        records::judge(rec, kind, counts, header, company, self.kind)
    }

    // The state after a right record.
    pub fn next(self, right: Record, rec: &[u8]) -> Walk
        ensures { result ≡ saturated (step self right.kind right.cents rec.now) }
    {
        Walk {
            place: place_after(self.place.further, right.kind),
            kind: self.kind_after(right.kind, rec),
            dispositions: self.dispositions_with(right.kind),
            cents: sum(self.cents, right.cents, CENTS_LIMIT),
        }
    }

    // The state at the place after a record of the kind, for a right one that opens no disposition: the
    // kind of flow and the counts stay, so that none need be compared with its limit.
    pub(crate) fn pass(self, kind: RecordKind) -> Walk
        ensures { result ≡ at_place self (place_after self.place.further kind) }
    {
        Walk {
            place: place_after(self.place.further, kind),
            ..self
        }
    }

    // Whether the flow may end here.
    pub fn complete(self) -> bool
        ensures { result ≡ not (is_due (permitted self.place.due)) }
    {
        matches!(self.place.due, Due::Nothing)
    }

    // Whether the trailer may come next.
    pub fn may_close(self) -> bool
        ensures { result ≡ may_close (permitted self.place.due) }
    {
        matches!(self.place.due, Due::R14OrEf)
    }

    // The totals of n records that the walk has gone over.
    pub fn totals(self, n: u64) -> Totals
        ensures { result ≡ walk_totals self n }
    {
        Totals {
            kind: records::or_requests(self.kind),
            dispositions: self.dispositions,
            cents: self.cents,
            records: n,
        }
    }

    // The kind of flow after a record of the kind: the first record 14 decides it.
    fn kind_after(self, kind: RecordKind, rec: &[u8]) -> Option<FlowKind>
        ensures { result ≡ kind_after self.kind kind rec.now }
    {
        if !records::opens(kind) || self.kind.is_some() {
            return self.kind;
        }
        records::kind_in(rec)
    }

    // The dispositions up to and with a record of the kind.
    fn dispositions_with(self, kind: RecordKind) -> u64
        ensures { result ≡ min (dispositions_with self kind) count_limit }
    {
        if records::opens(kind) {
            return sum(self.dispositions, 1, COUNT_LIMIT);
        }
        sum(self.dispositions, 0, COUNT_LIMIT)
    }
}

// a + b, or limit where that is less. Most records add nothing.
fn sum(a: u64, b: u64, limit: u64) -> u64
    ensures { result ≡ min (a + b) limit }
{
    if limit <= a {
        return limit;
    }
    if b == 0 {
        return a;
    }
    if limit - a <= b {
        return limit;
    }
    a + b
}
