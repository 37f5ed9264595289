// A disposition taken out.
ghost use Rattle.std.specs.Prelude.{◌+◌, ◌-◌, ◌*◌, ◌≤◌, ◌<◌, ◌≡◌, length, take, drop, replicate};
ghost use mathlib.Core.List.{◌++◌, flatten};
ghost use Rattle.sequences.specs.Part.{put};
ghost use Rattle.records.specs.Limits.{count_limit};
ghost use Rattle.flow.specs.Records.{cut};
ghost use Rattle.amend.specs.Amended.{withdrawn_amended};
ghost use Rattle.amend.specs.Withdraw.{renumbered_from, recounted, counted_at};
ghost use Rattle.amend.specs.Withdraw.{withdraw as Withdraw-withdraw};

use flow::{Refusal, Totals, as_index, refused_call};
use records::{seven_digits, total_first, total_last, write_number};
use refusals::Reason;

// What a withdrawal answers: the totals of the flow left, and its length.
#[derive(Clone, Copy, Debug, PartialEq, Eq)]
pub struct Withdrawn {
    pub totals: Totals,
    pub length: u64,
}

// Takes disposition k out of the flow: its records go, later ones move up in order and are numbered
// anew, the trailer gets the new totals, and the freed bytes at the end become blanks. Refused, in this
// order: what the reader refuses; 15, no such disposition; 18, the only one. Where it is refused it
// writes nothing, and the flow is as long as it was lent.
#[tactic(auto, using(crate::proofs::FoundFacts::bounds_found))]
pub fn withdraw(flow: &mut [u8], k: u64) -> Result<Withdrawn, Refusal>
    ensures { withdrawn_amended (length flow.old) result flow.new ≡ Withdraw-withdraw flow.old k }
{
    let found = flow::find_with_totals(flow, k)?;
    let location = found.location;
    let before = found.totals;
    if before.dispositions <= 1 {
        return Err(refused_call(Reason::OnlyDisposition));
    }
    let totals = Totals {
        dispositions: before.dispositions - 1,
        cents: before.cents - location.cents,
        records: before.records - location.records,
        ..before
    };
    let at = as_index(location.first) - 1;
    let after = at + as_index(location.records);
    let left = as_index(totals.records);
    flow.copy_within(120 * after.., 120 * at);
    renumber(flow, at, left - 1, k - 1);
    recount(flow, totals);
    flow[120 * left..].fill(b' ');
    Ok(Withdrawn {
        totals,
        length: 120 * totals.records,
    })
}

// Numbers the records from index `from` up to index `to` anew, the first disposition among them with
// the number after `before`: a record 14 opens the next one. The digits are made once for each
// disposition, and copied into its records.
fn renumber(flow: &mut [u8], from: usize, to: usize, before: u64)
    requires from_le_to { from ≤ to }
    requires to_in_bounds { 120 * to ≤ length flow.old }
    requires before_lt_count_limit { before < count_limit }
    requires to_lt_count_limit { to < count_limit }
    ensures { flow.new ≡ put (120 * from)
        (flatten (renumbered_from before (cut (to - from) (drop (120 * from) flow.old))))
        flow.old }
{
    let mut number = before;
    let mut shown = seven_digits(before);
    for i in from..to {
        if records::is_opening(&flow[120 * i..120 * i + 120]) {
            number += 1;
            shown = seven_digits(number);
        }
        flow[120 * i + 3..120 * i + 10].copy_from_slice(&shown);
    }
}

// Gives the trailer, the last of the flow's records, the totals.
fn recount(flow: &mut [u8], totals: Totals)
    requires le_records { 1 ≤ totals.records }
    requires records_in_bounds { 120 * totals.records ≤ length flow.old }
    ensures { flow.new ≡ counted_at totals flow.old }
{
    let at = 120 * (as_index(totals.records) - 1);
    write_totals(&mut flow[at..at + 120], totals);
}

// Writes 46-52, the total at the place of its kind, and 83-89 of a trailer.
fn write_totals(rec: &mut [u8], totals: Totals)
    requires { length rec.old ≡ 120 }
    ensures { rec.new ≡ recounted totals rec.old }
{
    write_number(rec, 46, 52, totals.dispositions);
    let kind = totals.kind;
    write_number(rec, total_first(kind), total_last(kind), totals.cents);
    write_number(rec, 83, 89, totals.records);
}
