// What reading a flow answers.
ghost use Rattle.std.specs.Prelude.{◌≡◌};
ghost use Rattle.flow.specs.Verdict.{refused_call, numbered, of_call};

use records::FlowKind;
use refusals::Reason;

// The kind of flow, the count of dispositions, the sum of their amounts in cents, and the count of
// records.
#[derive(Clone, Copy, Debug, PartialEq, Eq)]
pub struct Totals {
    pub kind: FlowKind,
    pub dispositions: u64,
    pub cents: u64,
    pub records: u64,
}

// The reason of a refusal, and the record and the position of the fault: both 0 where it is of the call
// and of no record. The position is 0 too where a record is missing (4), or where an item is none (20,
// whose record is the item).
#[derive(Clone, Copy, Debug, PartialEq, Eq)]
pub struct Refusal {
    pub reason: Reason,
    pub record: u64,
    pub position: u64,
}

// The refusal of a call for a reason that stands at no record.
pub fn refused_call(reason: Reason) -> Refusal
    ensures { result ≡ refused_call reason }
{
    Refusal {
        reason,
        record: 0,
        position: 0,
    }
}

// A refusal as a clerk is told it: by its number, which may be any.
#[derive(Clone, Copy, Debug, PartialEq, Eq)]
pub struct NumberedRefusal {
    pub number: u64,
    pub record: u64,
    pub position: u64,
}

// The refusal of a call by a number that stands at no record. By this name, and no `From`, since
// `EntryPoints` has a law on it.
pub fn refusal_of_call(number: u64) -> NumberedRefusal
    ensures { numbered result ≡ of_call number }
{
    NumberedRefusal {
        number,
        record: 0,
        position: 0,
    }
}
