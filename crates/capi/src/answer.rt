// The eight entries that the caller's `answer` receives, and what is returned beside them.
ghost use Rattle.std.specs.Prelude.{◌≡◌};
ghost use Rattle.flow.specs.Verdict.{verdict, on_paper, numbered};
ghost use Rattle.flow.specs.Verdict.{accepted as Verdict-accepted};
ghost use Rattle.capi.specs.Returned.{returned, returned_three, kind_entry, of_refusal, of_verdict};

use flow::{NumberedRefusal, Refusal, Totals};
use records::FlowKind;

// What C is told by: numbers.
const ACCEPTED: u8 = 1;

const REFUSED: u8 = 0;

// Writes the three numbers of an accepted call without a kind of flow, and the length where it has one.
pub(crate) fn accept(answer: &mut [u64; 8], a: u64, b: u64, c: u64, length: u64) -> u8
    ensures { returned result answer.new ≡ returned_three 1 a b c length }
{
    *answer = [a, b, c, length, 0, 0, 0, 0];
    ACCEPTED
}

// Writes the totals of a flow, its kind, and the length where the call has one.
pub(crate) fn accept_flow(answer: &mut [u64; 8], totals: Totals, length: u64) -> u8
    ensures { returned result answer.new ≡ of_verdict (Verdict-accepted totals) length }
{
    *answer = [
        totals.dispositions,
        totals.cents,
        totals.records,
        length,
        kind_entry(totals.kind),
        0,
        0,
        0,
    ];
    ACCEPTED
}

// The number of a kind of flow.
fn kind_entry(kind: FlowKind) -> u64
    ensures { result ≡ kind_entry kind }
{
    match kind {
        FlowKind::Requests => 1,
        FlowKind::Recalls => 2,
    }
}

// Writes a refusal, and the length where the call has one.
pub(crate) fn refuse(answer: &mut [u64; 8], refusal: Refusal, length: u64) -> u8
    ensures { returned result answer.new ≡ of_refusal (on_paper refusal) length }
{
    let numbered = NumberedRefusal {
        number: refusal.reason.number(),
        record: refusal.record,
        position: refusal.position,
    };
    refuse_by_number(answer, numbered, length)
}

// The same of a refusal by its number.
pub(crate) fn refuse_by_number(answer: &mut [u64; 8], refusal: NumberedRefusal, length: u64) -> u8
    ensures { returned result answer.new ≡ of_refusal (numbered refusal) length }
{
    *answer = [
        refusal.number,
        refusal.record,
        refusal.position,
        length,
        0,
        0,
        0,
        0,
    ];
    REFUSED
}

// Writes what a call on a flow answers.
pub(crate) fn tell(answer: &mut [u64; 8], told: Result<Totals, Refusal>, length: u64) -> u8
    ensures { returned result answer.new ≡ of_verdict (verdict told) length }
{
    match told {
        Ok(totals) => accept_flow(answer, totals, length),
        Err(refusal) => refuse(answer, refusal, length),
    }
}
