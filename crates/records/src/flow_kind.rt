// The kinds of flow (document 02, E1): new requests, and recalls of requests already sent. What differs
// between them is asked here: the causale and the sign of a record 14, and the place of the total in
// the trailer. Each has a function of its own, and not a part of one answer, since `EntryPoints` has a law
// on each.
ghost use Rattle.std.specs.Prelude.{◌≡◌};
ghost use Rattle.fields.specs.Bytes.{is_equal};
ghost use Rattle.records.specs.Field.{first_of, last_of};
ghost use Rattle.records.specs.Field.{field as Field-field};
ghost use Rattle.records.specs.FlowKinds.{causale, sign, total_span, total_at, kind_in, is_of, or_requests};

use crate::position::field;

#[derive(Clone, Copy, Debug, PartialEq, Eq)]
pub enum FlowKind {
    Requests,
    Recalls,
}

// The causale, as it stands at 29-33 of a record 14.
pub fn causale_of(kind: FlowKind) -> [u8; 5]
    ensures { result ≡ causale kind }
{
    match kind {
        FlowKind::Requests => *b"07000",
        FlowKind::Recalls => *b"07100",
    }
}

// The sign, as it stands at 47 of a record 14.
pub fn sign_of(kind: FlowKind) -> [u8; 1]
    ensures { result ≡ sign kind }
{
    match kind {
        FlowKind::Requests => *b"-",
        FlowKind::Recalls => *b"+",
    }
}

// The first position of the total in the trailer.
pub fn total_first(kind: FlowKind) -> usize
    ensures { result ≡ first_of (total_span kind) }
{
    match kind {
        FlowKind::Requests => 53,
        FlowKind::Recalls => 68,
    }
}

// And the last.
pub fn total_last(kind: FlowKind) -> usize
    ensures { result ≡ last_of (total_span kind) }
{
    match kind {
        FlowKind::Requests => 67,
        FlowKind::Recalls => 82,
    }
}

// What the trailer says in the field that starts at the position: the sum at the kind's place, and zero
// at the other.
pub fn total_at(kind: FlowKind, first: usize, cents: u64) -> u64
    ensures { result ≡ total_at kind first cents }
{
    if first == total_first(kind) { cents } else { 0 }
}

// The kind of flow that a record 14 stands in, by its causale.
pub fn kind_in(rec: &[u8]) -> Option<FlowKind>
    ensures { result ≡ kind_in rec.now }
{
    if has_causale(rec, FlowKind::Requests) {
        return Some(FlowKind::Requests);
    }
    if has_causale(rec, FlowKind::Recalls) {
        return Some(FlowKind::Recalls);
    }
    None
}

// Whether a record 14 may stand in a flow of the kind found so far: in any, where none is.
pub(crate) fn is_of(rec: &[u8], found: Option<FlowKind>) -> bool
    ensures { result ≡ is_of found (Field-field 29 33 rec.now) }
{
    match found {
        Some(kind) => has_causale(rec, kind),
        None => true,
    }
}

// The kind found, and requests where none is.
pub fn or_requests(found: Option<FlowKind>) -> FlowKind
    ensures { result ≡ or_requests found }
{
    found.unwrap_or(FlowKind::Requests)
}

fn has_causale(rec: &[u8], kind: FlowKind) -> bool
    ensures { result ≡ is_equal (Field-field 29 33 rec.now) (causale kind) }
{
    let causale = causale_of(kind);
    fields::equal(field(rec, 29, 33), &causale)
}
