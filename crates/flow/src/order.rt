// The order of records: which types may come next.
ghost use Rattle.std.specs.Prelude.{◌≡◌, [], ◌∷◌};
ghost use Rattle.records.specs.declared.kind.RecordKind.TheVariants.{R59};
ghost use Rattle.flow.specs.Order.{permitted, place_after, among};

use records::RecordKind;

// What may come next: a type, one of two, or nothing after the trailer.
#[derive(Clone, Copy, Debug, PartialEq, Eq)]
pub enum Due {
    OnlyIm,
    OnlyR14,
    R16OrR20,
    OnlyR20,
    OnlyR30,
    OnlyR40,
    R50OrR59,
    R59OrR51,
    OnlyR51,
    OnlyR70,
    R14OrEf,
    Nothing,
}

// A place in the flow: what may come next, and, where a further 59 may come, how many stand right
// before it; else 0. The number stands beside and not in a case, so that the next place depends on the
// record's kind and this number alone.
#[derive(Clone, Copy, Debug, PartialEq, Eq)]
pub struct Place {
    pub due: Due,
    pub further: u64,
}

// The kind of the record among those that may come next. It is compiled into both its callers: a call for
// each record is dearer than the code.
#[inline(always)]
pub(crate) fn kind_due(due: Due, rec: &[u8]) -> Option<RecordKind>
    ensures { result ≡ among (permitted due) rec.now }
{
    match due {
        Due::OnlyIm => only(RecordKind::Im, rec),
        Due::OnlyR14 => only(RecordKind::R14, rec),
        Due::R16OrR20 => first_of(RecordKind::R16, RecordKind::R20, rec),
        Due::OnlyR20 => only(RecordKind::R20, rec),
        Due::OnlyR30 => only(RecordKind::R30, rec),
        Due::OnlyR40 => only(RecordKind::R40, rec),
        Due::R50OrR59 => first_of(RecordKind::R50, RecordKind::R59, rec),
        Due::R59OrR51 => first_of(RecordKind::R59, RecordKind::R51, rec),
        Due::OnlyR51 => only(RecordKind::R51, rec),
        Due::OnlyR70 => only(RecordKind::R70, rec),
        Due::R14OrEf => first_of(RecordKind::R14, RecordKind::Ef, rec),
        Due::Nothing => None,
    }
}

fn first_of(kind: RecordKind, other: RecordKind, rec: &[u8]) -> Option<RecordKind>
    ensures { result ≡ among (kind ∷ other ∷ []) rec.now }
{
    if records::has_type(rec, kind) {
        Some(kind)
    } else {
        only(other, rec)
    }
}

fn only(kind: RecordKind, rec: &[u8]) -> Option<RecordKind>
    ensures { result ≡ among (kind ∷ []) rec.now }
{
    records::has_type(rec, kind).then_some(kind)
}

// The place after a record of the kind, with that many records 59 right before it.
pub(crate) fn place_after(further: u64, kind: RecordKind) -> Place
    ensures { result ≡ place_after further kind }
{
    let due = match kind {
        RecordKind::Im => Due::OnlyR14,
        RecordKind::R14 => Due::R16OrR20,
        RecordKind::R16 => Due::OnlyR20,
        RecordKind::R20 => Due::OnlyR30,
        RecordKind::R30 => Due::OnlyR40,
        RecordKind::R40 => Due::R50OrR59,
        RecordKind::R50 => Due::OnlyR51,
        RecordKind::R59 => return further_place(further),
        RecordKind::R51 => Due::OnlyR70,
        RecordKind::R70 => Due::R14OrEf,
        RecordKind::Ef => Due::Nothing,
    };
    Place { due, further: 0 }
}

// Five records 59 are the most.
fn further_place(further: u64) -> Place
    ensures { result ≡ place_after further R59 }
{
    if further < 4 {
        return Place {
            due: Due::R59OrR51,
            further: further + 1,
        };
    }
    Place {
        due: Due::OnlyR51,
        further: 0,
    }
}
