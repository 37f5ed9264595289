// Reading a flow back to its list.
ghost use Rattle.std.specs.Prelude.{◌+◌, ◌≤◌, ◌≡◌, length};
ghost use Rattle.sequences.specs.Part.{put};
ghost use Rattle.flow.specs.ExactTotals.{kind_of};
ghost use Rattle.flow.specs.Records.{most_bytes, records_of};
ghost use Rattle.list.specs.Items.{list_bytes};
ghost use Rattle.list.specs.Output.{filled_output};
ghost use Rattle.list.specs.ReadBack.{gather, item_of, item_length, list_of, read_back};
ghost use Rattle.list.specs.Table.{body_length, row_in};
ghost use Rattle.list.specs.Table.{carried as Table-carried};

use crate::encode::place;
use crate::filled::Filled;
use crate::table::{ItemKind, row_in};
use flow::Refusal;
use records::{FlowKind, field};
use refusals::Reason;

// Writes the flow's list at the front of out, and answers the flow's totals and the list's length.
// What the reader refuses is refused alike, and then an out that is too short by 21.
pub fn read_back(flow: &[u8], out: &mut [u8]) -> Result<Filled, Refusal>
    ensures { filled_output result out.new ≡ read_back flow.now out.old }
{
    let totals = flow::read(flow)?;
    let length = list_length(flow, totals.kind);
    if out.len() < length {
        return Err(flow::refused_call(Reason::NoRoom));
    }
    store_list(flow, out, totals.kind);
    Ok(Filled {
        totals,
        length: flow::as_count(length),
    })
}

// The length of the flow's list.
fn list_length(flow: &[u8], kind: FlowKind) -> usize
    requires flow_len_bound { length flow.now ≤ most_bytes }
    requires kind_value { kind ≡ kind_of (records_of flow.now) }
    ensures { result ≡ length (list_of flow.now) }
{
    let mut length = 0;
    for i in 0..flow.len() / 120 {
        length += item_length(row_in(&flow[120 * i..120 * i + 120], kind));
    }
    length
}

// The length of the item of a record of the row: a record that the table does not have gives none.
fn item_length(row: Option<ItemKind>) -> usize
    ensures { result ≡ item_length row }
{
    match row {
        Some(kind) => 1 + kind.body_length(),
        None => 0,
    }
}

// Each record's item in turn at the front of out.
fn store_list(flow: &[u8], out: &mut [u8], kind: FlowKind)
    requires kind_value { kind ≡ kind_of (records_of flow.now) }
    requires flow_in_bounds { length (list_of flow.now) ≤ length out.old }
    ensures { out.new ≡ put 0 (list_of flow.now) out.old }
{
    let mut at = 0;
    for i in 0..flow.len() / 120 {
        at = store_item(&flow[120 * i..120 * i + 120], kind, out, at);
    }
}

// The item of a record of a flow of the kind at an index of out, and where it ends; nothing where the
// table does not have the record.
fn store_item(rec: &[u8], flow: FlowKind, out: &mut [u8], at: usize) -> usize
    requires rec_len { length rec.now ≡ 120 }
    requires rec_in_bounds { at + item_length (row_in flow rec.now) ≤ length out.old }
    ensures value { result ≡ at + item_length (row_in flow rec.now) }
    ensures out_after { out.new ≡ put at (list_bytes (item_of flow rec.now)) out.old }
{
    let Some(kind) = row_in(rec, flow) else {
        return at;
    };
    out[at] = kind.letter();
    let end = at + 1 + kind.body_length();
    store_body(rec, kind, &mut out[at + 1..end]);
    end
}

// The carried bytes of a record, in order.
fn store_body(rec: &[u8], kind: ItemKind, out: &mut [u8])
    requires rec_len { length rec.now ≡ 120 }
    requires out_len { length out.old ≡ body_length kind }
    ensures { out.new ≡ gather (Table-carried kind) rec.now }
{
    let mut from = 0;
    for (first, last) in kind.carried() {
        let bytes = field(rec, *first, *last);
        place(out, from + 1, bytes);
        from += bytes.len();
    }
}
