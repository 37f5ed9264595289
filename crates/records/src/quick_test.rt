// Records that a few tests show to be right: the fast path of a reader. Of seven records six stand
// after the 14 of their disposition and have little to keep, and the number due at 4-10 is the one that
// stands in the record before. It is compared as bytes, and never read as digits.
ghost use Rattle.std.specs.Prelude.{◌≡◌};
ghost use Rattle.records.specs.QuickTest.{quick_checks, passes_quick_test};

use crate::bytes::bad_byte;
use crate::kind::RecordKind;
use crate::rules::{blank, listed, same};

// Whether a few tests show the record to be a right one of the kind, where `number` are 4-10 of a right
// record before it in its disposition. Where this says no, `judge` decides. The test of every byte is the
// longest, and comes last.
pub fn passes_quick_test(rec: &[u8], kind: RecordKind, number: &[u8]) -> bool
    ensures { result ≡ passes_quick_test kind number.now rec.now }
{
    let Some(rec) = rec.as_array::<120>() else {
        return false;
    };
    quick_checks(rec, kind) && same(rec, 4, 10, number) && bad_byte(rec) == 0
}

// Whether the record keeps what its kind has to keep after its number. Text at 11-34 is enough for
// each kind that has to have some.
fn quick_checks(rec: &[u8; 120], kind: RecordKind) -> bool
    ensures { result ≡ quick_checks kind rec.now }
{
    match kind {
        RecordKind::R20 | RecordKind::R30 | RecordKind::R59 => !blank(rec, 11, 34),
        RecordKind::R40 | RecordKind::R50 | RecordKind::R51 => true,
        RecordKind::R70 => listed(rec, 94, b" PB"),
        RecordKind::Im | RecordKind::R14 | RecordKind::R16 | RecordKind::Ef => false,
    }
}
