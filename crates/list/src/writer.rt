// Writing a list out as a flow.
ghost use Rattle.std.specs.Prelude.{suc, ◌+◌, ◌*◌, ◌≤◌, ◌<◌, false, cond, ◌≡◌, length, take};
ghost use mathlib.Core.List.{[], flatten};
ghost use Rattle.sequences.specs.Part.{put};
ghost use Rattle.fields.specs.Digits.{digits};
ghost use Rattle.records.specs.Context.{header_of};
ghost use Rattle.records.specs.Field.{field as Field-field};
ghost use Rattle.records.specs.Kinds.{heads, opens, opened};
ghost use Rattle.records.specs.Limits.{count_limit, most_records};
ghost use Rattle.flow.specs.Judge.{walk_from};
ghost use Rattle.flow.specs.Walking.{start, first_company};
ghost use Rattle.flow.specs.Verdict.{verdict};
ghost use Rattle.list.specs.Encode.{list_totals, records_for, encode, kind_meant};
ghost use Rattle.list.specs.Items.{items_in, Listed};
ghost use Rattle.list.specs.Output.{filled_output};
ghost use Rattle.list.specs.Table.{record_of};
ghost use Rattle.list.specs.Write.{closed, judge_items, judge_list};
ghost use Rattle.list.specs.Write.{write as Write-write};

use crate::encode::{encode_item, encode_trailer, place};
use crate::filled::Filled;
use crate::item::{Item, count_items, first_item};
use crate::limits::MOST_ITEMS;
use crate::meant::{Meant, header_after};
use flow::{Refusal, Totals, Walk};
use records::{MOST_CENTS, field};
use refusals::Reason;

// Writes the flow that the list encodes at the front of out, and answers its totals and its length.
// Refused, in this order: 20, an item that is none; 1, too many items; 21, out is too short; what the
// reader refuses of the records, or 3 where EF may not follow them; 17, a total of more than fifteen
// digits. All of this is judged before a byte of out is written.
pub fn write(list: &[u8], out: &mut [u8]) -> Result<Filled, Refusal>
    ensures { filled_output result out.new ≡ Write-write list.now out.old }
{
    let totals = judge_list(list, out.len())?;
    store_items(list, out, totals);
    Ok(Filled {
        totals,
        length: 120 * totals.records,
    })
}

// The answer to a list, with an output of so many bytes.
fn judge_list(list: &[u8], room: usize) -> Result<Totals, Refusal>
    ensures { verdict result ≡ judge_list list.now room }
{
    match count_items(list) {
        Err(n) => Err(Refusal {
            reason: Reason::NoItem,
            record: n,
            position: 0,
        }),
        Ok(items) => {
            if MOST_ITEMS < items {
                return Err(flow::refused_call(Reason::WrongLength));
            }
            if room < 120 * (items + 1) {
                return Err(flow::refused_call(Reason::NoRoom));
            }
            judge_items(list)
        }
    }
}

// The answer to the records that the list encodes.
fn judge_items(list: &[u8]) -> Result<Totals, Refusal>
    requires { Listed list.now }
    ensures { verdict result ≡ judge_items (items_in list.now) }
{
    let Some(first) = first_item(list) else {
        return close(Walk::start(), 0);
    };
    let meant = Meant::start().counting(first.kind);
    let header = encode_item(first, meant, &[]);
    judge_records(list, &header)
}

// Each record in turn, built and judged, with the flow's header.
fn judge_records(list: &[u8], im: &[u8]) -> Result<Totals, Refusal>
    requires { Listed list.now }
    ensures { verdict result ≡ walk_from closed
        (header_of im.now)
        start [] 0 (records_for (items_in list.now)) }
{
    let mut walk = Walk::start();
    let mut company: &[u8] = &[];
    let mut meant = Meant::start();
    let mut header: &[u8] = &[];
    let mut n: u64 = 0;
    let mut rest = list;
    while let Some(it) = first_item(rest) {
        let own = meant.counting(it.kind);
        let rec = encode_item(it, own, header);
        n += 1;
        match walk.judge(&rec, n, im, company) {
            Err(fault) => {
                return Err(Refusal {
                    reason: fault.reason,
                    record: n,
                    position: fault.position,
                });
            }
            Ok(right) => {
                company = company_after(company, it);
                walk = walk.next(right, &rec);
            }
        }
        meant = own.after(it.kind);
        header = header_after(header, it);
        rest = it.after;
    }
    close(walk, n)
}

// The company code of the first 14, after an item: 92-96 of a 14 as its D carries them, since the record
// itself does not outlive its turn. Of any other item the body is not looked at.
fn company_after<'a>(company: &'a [u8], it: Item<'a>) -> &'a [u8]
    ensures { result.now ≡ first_company company.now (record_of it.entry.kind) (Field-field 37 41 it.entry.body.now) }
{
    let record = it.kind.record();
    if !records::opens(record) {
        return company;
    }
    flow::first_company(company, field(it.body, 37, 41), record)
}

// The answer after the last of n records, where EF is due.
fn close(walk: Walk, n: u64) -> Result<Totals, Refusal>
    requires { suc n ≤ most_records }
    ensures { verdict result ≡ closed walk n }
{
    if !walk.may_close() {
        return Err(Refusal {
            reason: Reason::WrongType,
            record: n + 1,
            position: 2,
        });
    }
    if MOST_CENTS < walk.cents {
        return Err(flow::refused_call(Reason::TotalTooLarge));
    }
    Ok(walk.totals(n + 1))
}

// Each record, and then EF with the totals, at the front of out.
fn store_items(list: &[u8], out: &mut [u8], totals: Totals)
    requires listed { Listed list.now }
    requires list_in_bounds { 120 * suc (length (items_in list.now)) ≤ length out.old }
    requires totals_value { totals ≡ list_totals (items_in list.now) }
    ensures { out.new ≡ put 0 (encode (items_in list.now)) out.old }
{
    let mut meant = Meant::start();
    let mut header: &[u8] = &[];
    let mut n = 0;
    let mut rest = list;
    while let Some(it) = first_item(rest) {
        let own = meant.counting(it.kind);
        let rec = encode_item(it, own, header);
        place(out, 120 * n + 1, &rec);
        meant = own.after(it.kind);
        header = header_after(header, it);
        n += 1;
        rest = it.after;
    }
    let trailer = encode_trailer(header, totals);
    place(out, 120 * n + 1, &trailer);
}
