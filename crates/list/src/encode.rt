// The records that a list encodes, each built in an array of 120 blanks.
ghost use Rattle.std.specs.Prelude.{◌+◌, ◌-◌, ◌≤◌, ◌∷◌, ◌++◌, ◌≡◌, length};
ghost use Rattle.sequences.specs.Part.{put};
ghost use Rattle.records.specs.Kinds.{type_of, role};
ghost use Rattle.list.specs.Encode.{fill, supplied, body_placed, encode_with, encode_trailer, totals_placed, trailer_placed, header_meant};
ghost use Rattle.list.specs.Encode.{encode_item as Encode-encode_item, place as Encode-place};
ghost use Rattle.list.specs.Items.{item};
ghost use Rattle.list.specs.Table.{record_of, body_length};
ghost use Rattle.list.specs.Table.{carried as Table-carried};

use crate::item::Item;
use crate::meant::Meant;
use flow::Totals;
use records::{CURRENCY, FlowKind, RecordKind, field, total_at, write_number};

// The record of an item, by what is meant at its place; `header` is the body of the latest H or Q before
// it, or empty, as the company code is that `Walk::judge` is lent.
pub(crate) fn encode_item(it: Item, meant: Meant, header: &[u8]) -> [u8; 120]
    ensures { result ≡ Encode-encode_item
        meant.dispositions
        (header_meant meant.flow header.now)
        (item it.entry.kind it.entry.body.now) }
{
    let mut rec = [b' '; 120];
    // 9-13 of the header, as its item carries them.
    fill_item(&mut rec, it, meant, field(header, 6, 10));
    rec
}

// Its type, what is supplied, and the carried bytes.
fn fill_item(rec: &mut [u8; 120], it: Item, meant: Meant, abi: &[u8])
    requires { length abi.now ≤ 5 }
    ensures { rec.new ≡ fill
        (Encode-place 2 (type_of (record_of it.entry.kind))
        ∷ (supplied (role (record_of it.entry.kind)) meant.flow meant.number abi.now
        ++ body_placed (Table-carried it.entry.kind) it.entry.body.now))
        rec.old }
{
    let own = it.kind.record();
    let code = records::type_of(own);
    place(rec, 2, &code);
    supply(rec, own, &meant.number, meant.flow, abi);
    place_body(rec, it);
}

// The number, the fixed values, those of the kind of flow and the ABI, to a record of the kind.
fn supply(rec: &mut [u8; 120], kind: RecordKind, number: &[u8; 7], flow: FlowKind, abi: &[u8])
    requires { length abi.now ≤ 5 }
    ensures { rec.new ≡ fill (supplied (role kind) flow number.now abi.now) rec.old }
{
    match kind {
        RecordKind::Im => place(rec, 114, &CURRENCY),
        RecordKind::R14 => {
            place(rec, 4, number);
            let causale = records::causale_of(flow);
            place(rec, 29, &causale);
            let sign = records::sign_of(flow);
            place(rec, 47, &sign);
            place(rec, 48, abi);
            place(rec, 120, &CURRENCY);
        }
        RecordKind::Ef => {}
        _ => place(rec, 4, number),
    }
}

// The body over the carried positions, in order.
fn place_body(rec: &mut [u8; 120], it: Item)
    ensures { rec.new ≡ fill (body_placed (Table-carried it.entry.kind) it.entry.body.now) rec.old }
{
    let mut rest = it.body;
    for (first, last) in it.kind.carried() {
        let (bytes, after) = rest.split_at(last + 1 - first);
        place(rec, *first, bytes);
        rest = after;
    }
}

// EF: `header` is the body of the latest H or Q, or empty.
pub(crate) fn encode_trailer(header: &[u8], totals: Totals) -> [u8; 120]
    ensures { result ≡ encode_trailer header.now totals }
{
    let mut rec = [b' '; 120];
    // 4-45 of the header, as its item carries them.
    fill_trailer(&mut rec, field(header, 1, 42), totals);
    rec
}

fn fill_trailer(rec: &mut [u8; 120], copied: &[u8], totals: Totals)
    requires { length copied.now ≤ 42 }
    ensures { rec.new ≡ fill (trailer_placed copied.now totals) rec.old }
{
    let code = records::type_of(RecordKind::Ef);
    place(rec, 2, &code);
    place(rec, 4, copied);
    write_totals(rec, totals);
    place(rec, 114, &CURRENCY);
}

// The counts of EF, and the sum at the place of its kind; zeros at the other. In a trailer that stands, `amend`
// leaves the other as it is.
fn write_totals(rec: &mut [u8; 120], totals: Totals)
    ensures { rec.new ≡ fill (totals_placed totals) rec.old }
{
    let kind = totals.kind;
    write_number(rec, 46, 52, totals.dispositions);
    write_number(rec, 53, 67, total_at(kind, 53, totals.cents));
    write_number(rec, 68, 82, total_at(kind, 68, totals.cents));
    write_number(rec, 83, 89, totals.records);
}

// Puts the bytes in a record, or in a flow, from a position on.
pub(crate) fn place(out: &mut [u8], first: usize, content: &[u8])
    requires le_first { 1 ≤ first }
    requires content_in_bounds { first - 1 + length content.now ≤ length out.old }
    ensures { out.new ≡ put (first - 1) content.now out.old }
{
    let from = first - 1;
    out[from..from + content.len()].copy_from_slice(content);
}
