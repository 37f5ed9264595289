// Document 01's table of kinds, with the Q of document 02, E1: for each kind of item its kind byte, its
// record, its carried positions and the length of its body.
ghost use Rattle.std.specs.Prelude.{◌≡◌};
ghost use Rattle.list.specs.Table.{rows_of, header_letter, record_of, body_length, carried_pairs, row_of, row_in};
ghost use Rattle.list.specs.Table.{letter as Table-letter};

use records::{FlowKind, RecordKind};

// The kinds of item, by their kind bytes. The header's item tells the kind of flow: H is one of
// requests, Q one of recalls.
#[derive(Clone, Copy, Debug, PartialEq, Eq)]
pub(crate) enum ItemKind {
    H(FlowKind),
    D,
    S,
    C,
    B,
    A,
    R,
    X,
    K,
    Z,
}

impl ItemKind {
    // The kind byte.
    pub(crate) fn letter(self) -> u8
        ensures { result ≡ Table-letter self }
    {
        match self {
            ItemKind::H(flow) => header_letter(flow),
            ItemKind::D => b'D',
            ItemKind::S => b'S',
            ItemKind::C => b'C',
            ItemKind::B => b'B',
            ItemKind::A => b'A',
            ItemKind::R => b'R',
            ItemKind::X => b'X',
            ItemKind::K => b'K',
            ItemKind::Z => b'Z',
        }
    }

    // The record that an item of the kind encodes.
    pub(crate) fn record(self) -> RecordKind
        ensures { result ≡ record_of self }
    {
        match self {
            ItemKind::H(_) => RecordKind::Im,
            ItemKind::D => RecordKind::R14,
            ItemKind::S => RecordKind::R16,
            ItemKind::C => RecordKind::R20,
            ItemKind::B => RecordKind::R30,
            ItemKind::A => RecordKind::R40,
            ItemKind::R => RecordKind::R50,
            ItemKind::X => RecordKind::R59,
            ItemKind::K => RecordKind::R51,
            ItemKind::Z => RecordKind::R70,
        }
    }

    // The carried positions, the first and the last of each span.
    pub(crate) fn carried(self) -> &'static [(usize, usize)]
        ensures { result.now ≡ carried_pairs self }
    {
        match self {
            ItemKind::H(_) => &[(4, 45), (105, 111)],
            ItemKind::D => &[(23, 28), (34, 46), (53, 69), (92, 113)],
            ItemKind::S => &[(11, 37)],
            ItemKind::C => &[(11, 106)],
            ItemKind::B => &[(11, 86)],
            ItemKind::A | ItemKind::R | ItemKind::X | ItemKind::K => &[(11, 120)],
            ItemKind::Z => &[(94, 94), (96, 120)],
        }
    }

    // The length of a body: the widths of the carried positions together.
    pub(crate) fn body_length(self) -> usize
        ensures { result ≡ body_length self }
    {
        match self {
            ItemKind::H(_) => 49,
            ItemKind::D => 58,
            ItemKind::S => 27,
            ItemKind::C => 96,
            ItemKind::B => 76,
            ItemKind::A | ItemKind::R | ItemKind::X | ItemKind::K => 110,
            ItemKind::Z => 26,
        }
    }
}

// The kind byte of the header's item.
fn header_letter(flow: FlowKind) -> u8
    ensures { result ≡ header_letter flow }
{
    match flow {
        FlowKind::Requests => b'H',
        FlowKind::Recalls => b'Q',
    }
}

// The row of a kind byte. The header's of the recalls is the one that those of the requests lack.
pub(crate) fn row_of(byte: u8) -> Option<ItemKind>
    ensures { result ≡ row_of byte }
{
    let recalls = ItemKind::H(FlowKind::Recalls);
    if byte == recalls.letter() {
        return Some(recalls);
    }
    let kinds = kinds_of(FlowKind::Requests);
    kinds.iter().copied().find(|kind| byte == kind.letter())
}

// The row of a record of a flow of the kind, by its type.
pub(crate) fn row_in(rec: &[u8], flow: FlowKind) -> Option<ItemKind>
    ensures { result ≡ row_in flow rec.now }
{
    let kinds = kinds_of(flow);
    kinds
        .iter()
        .copied()
        .find(|kind| records::has_type(rec, kind.record()))
}

// The kinds of a flow of the kind, in the table's order.
fn kinds_of(flow: FlowKind) -> [ItemKind; 10]
    ensures { result ≡ rows_of flow }
{
    [
        ItemKind::H(flow),
        ItemKind::D,
        ItemKind::S,
        ItemKind::C,
        ItemKind::B,
        ItemKind::A,
        ItemKind::R,
        ItemKind::X,
        ItemKind::K,
        ItemKind::Z,
    ]
}
