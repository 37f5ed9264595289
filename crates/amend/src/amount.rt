// Another amount for a disposition.
ghost use Rattle.std.specs.Prelude.{◌+◌, ◌-◌, ◌*◌, ◌≤◌, ◌≡◌, length};
ghost use Rattle.fields.specs.Digits.{digits};
ghost use Rattle.amend.specs.Amended.{amended, written_in_record};
ghost use Rattle.amend.specs.Change.{change as Change-change};

use flow::{Refusal, Totals, refused_call};
use records::{AMOUNT_FIRST, AMOUNT_LAST, MOST_CENTS, total_first, total_last};
use refusals::Reason;

// Gives disposition k the amount, and answers the totals of the flow left. Refused, in this
// order: what the reader refuses; 15, no such disposition; 16, an amount of zero or of more than thirteen
// digits; 17, a total of more than fifteen. It writes 34-46 of the disposition's record 14 and the total in the
// trailer, at 53-67 or, of a recall, at 68-82; and where it is refused nothing.
#[tactic(auto, using(crate::proofs::FoundFacts::bounds_found))]
pub fn change(flow: &mut [u8], k: u64, cents: u64) -> Result<Totals, Refusal>
    ensures { amended result (length flow.old) flow.new ≡ Change-change flow.old k cents }
{
    let found = flow::find_with_totals(flow, k)?;
    if !fields::is_amount(cents) {
        return Err(refused_call(Reason::NotAnAmount));
    }
    let location = found.location;
    let before = found.totals;
    let totals = Totals {
        cents: before.cents - location.cents + cents,
        ..before
    };
    if MOST_CENTS < totals.cents {
        return Err(refused_call(Reason::TotalTooLarge));
    }
    let kind = totals.kind;
    place_number(flow, location.first, AMOUNT_FIRST, AMOUNT_LAST, cents);
    place_number(
        flow,
        totals.records,
        total_first(kind),
        total_last(kind),
        totals.cents,
    );
    Ok(totals)
}

// Writes the digits of a number in record r of the flow, from position first to last.
fn place_number(flow: &mut [u8], r: u64, first: usize, last: usize, value: u64)
    requires le_r { 1 ≤ r }
    requires r_in_bounds { 120 * r ≤ length flow.old }
    requires le_first { 1 ≤ first }
    requires first_bound { first - 1 ≤ last }
    requires last_bound { last ≤ 120 }
    ensures { flow.new ≡ written_in_record r first (digits (last - (first - 1)) value) flow.old }
{
    let at = 120 * (flow::as_index(r) - 1);
    records::write_number(&mut flow[at..at + 120], first, last, value);
}
