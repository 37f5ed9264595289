// The eleven record types of a request flow.
ghost use Rattle.std.specs.Prelude.{◌≡◌};
ghost use Rattle.records.specs.Kinds.{type_of, has_type, is_opening};
ghost use Rattle.records.specs.Kinds.{heads as Kinds-heads, opens as Kinds-opens};

use crate::constants;
use crate::position::field;

#[derive(Clone, Copy, Debug, PartialEq, Eq)]
pub enum RecordKind {
    Im,
    R14,
    R16,
    R20,
    R30,
    R40,
    R50,
    R59,
    R51,
    R70,
    Ef,
}

// The type as it stands at 2-3 of a record of the kind.
pub fn type_of(kind: RecordKind) -> [u8; 2]
    ensures { result ≡ type_of kind }
{
    match kind {
        RecordKind::Im => constants::TYPE_IM,
        RecordKind::R14 => constants::TYPE_14,
        RecordKind::R16 => constants::TYPE_16,
        RecordKind::R20 => constants::TYPE_20,
        RecordKind::R30 => constants::TYPE_30,
        RecordKind::R40 => constants::TYPE_40,
        RecordKind::R50 => constants::TYPE_50,
        RecordKind::R59 => constants::TYPE_59,
        RecordKind::R51 => constants::TYPE_51,
        RecordKind::R70 => constants::TYPE_70,
        RecordKind::Ef => constants::TYPE_EF,
    }
}

// Whether the record is of the kind, by its type alone.
pub fn has_type(rec: &[u8], kind: RecordKind) -> bool
    ensures { result ≡ has_type kind rec.now }
{
    let code = type_of(kind);
    fields::equal(field(rec, 2, 3), &code)
}

// Whether the record opens a disposition, by its type alone.
pub fn is_opening(rec: &[u8]) -> bool
    ensures { result ≡ is_opening rec.now }
{
    has_type(rec, RecordKind::R14)
}

// Whether a record of the kind heads the flow.
pub fn heads(kind: RecordKind) -> bool
    ensures { result ≡ Kinds-heads kind }
{
    matches!(kind, RecordKind::Im)
}

// Whether a record of the kind opens a disposition.
pub fn opens(kind: RecordKind) -> bool
    ensures { result ≡ Kinds-opens kind }
{
    matches!(kind, RecordKind::R14)
}
