// Where a disposition stands in a flow.
ghost use Rattle.std.specs.Prelude.{◌≡◌};
ghost use Rattle.sequences.specs.Slice.{StartsAt};
ghost use Rattle.fields.specs.Digits.{number as Digits-number};
ghost use Rattle.records.specs.Amount.{amount_in, HasAmount};
ghost use Rattle.flow.specs.Find.{dispositions_in, start_of, location_of, part_of, offset_of, HasDisposition, opening_from, find_with_totals};
ghost use Rattle.flow.specs.Find.{find as Find-find};
ghost use Rattle.flow.specs.Verdict.{verdict};

use crate::answer::{Refusal, Totals, refused_call};
use crate::casts::{as_count, as_index};
use crate::reader::read;
use refusals::Reason;

// The first record of a disposition, counted from 1, the number of its records and its amount in cents.
#[derive(Clone, Copy, Debug, PartialEq, Eq)]
pub struct Location {
    pub first: u64,
    pub records: u64,
    pub cents: u64,
}

// The flow's totals, and where one of its dispositions is.
#[derive(Clone, Copy, Debug, PartialEq, Eq)]
pub struct WithTotals {
    pub totals: Totals,
    pub location: Location,
}

// Where disposition k of the flow stands, counted from 1. What the reader refuses is refused alike, and
// then a k of 0 or above the count by 15.
pub fn find(flow: &[u8], k: u64) -> Result<Location, Refusal>
    ensures { verdict result ≡ Find-find flow.now k }
{
    let found = find_with_totals(flow, k)?;
    Ok(found.location)
}

// What `read` and `find` answer, from one reading: an amendment needs both.
pub fn find_with_totals(flow: &[u8], k: u64) -> Result<WithTotals, Refusal>
    ensures { verdict result ≡ find_with_totals flow.now k }
{
    let totals = read(flow)?;
    if k == 0 || totals.dispositions < k {
        return Err(refused_call(Reason::NoDisposition));
    }
    let location = location_of(flow, k);
    Ok(WithTotals { totals, location })
}

// The part of the caller's flow that disposition k is, at its place in it; where `find` refuses, an
// empty part at its start: `EntryPoints` has a law on it.
pub fn disposition(flow: &[u8], k: u64) -> &[u8]
    ensures bytes { result.now ≡ part_of flow.now k }
    ensures place { StartsAt result flow.entry (offset_of flow.now k) }
{
    match find(flow, k) {
        Ok(location) => {
            let from = as_index(location.first - 1);
            &flow[120 * from..120 * (from + as_index(location.records))]
        }
        Err(_) => &flow[0..0],
    }
}

// Where disposition k of an accepted flow stands: up to the next record that opens one or the trailer.
fn location_of(flow: &[u8], k: u64) -> Location
    requires { HasDisposition flow.now k }
    ensures { result ≡ location_of (dispositions_in flow.now) k }
{
    let at = start_of(flow, k);
    let end = next_opening(flow, at + 1);
    let cents = amount(&flow[120 * at..120 * at + 120]);
    Location {
        first: as_count(at + 1),
        records: as_count(end - at),
        cents,
    }
}

// The index of the first record of disposition k of an accepted flow: from the record after the
// header, as many times to the next record that opens one as there are dispositions before it.
fn start_of(flow: &[u8], k: u64) -> usize
    requires { HasDisposition flow.now k }
    ensures { result ≡ start_of (dispositions_in flow.now) k }
{
    let mut at = 1;
    for _ in 1..k {
        at = next_opening(flow, at + 1);
    }
    at
}

// The index of the first record at an index or after it that opens a disposition, or that of the trailer,
// the last record, where there is none. An index after the trailer comes back as it is.
pub fn next_opening(flow: &[u8], from: usize) -> usize
    ensures { result ≡ opening_from flow.now from }
{
    let trailer = (flow.len() / 120).saturating_sub(1);
    for i in from..trailer {
        let rec = &flow[120 * i..120 * i + 120];
        if records::is_opening(rec) {
            return i;
        }
    }
    trailer.max(from)
}

// The amount of a record that opens a disposition of an accepted flow: it is never refused.
fn amount(rec: &[u8]) -> u64
    requires { HasAmount rec.now }
    ensures { result ≡ Digits-number (amount_in rec.now) }
{
    records::amount(rec).unwrap()
}
