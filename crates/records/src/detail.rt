// The records of a disposition that have little to keep: 20, 30, 40, 50, 59, 51 and 70.
ghost use Rattle.std.specs.Prelude.{◌≡◌, [], ◌∷◌, ◌++◌};
ghost use Rattle.sequences.specs.Text.{text};
ghost use Rattle.records.specs.Checks.{is_present, is_listed, number_checks};
ghost use Rattle.records.specs.Field.{field, byte_at};
ghost use Rattle.records.specs.FieldTests.{Fits};
ghost use Rattle.records.specs.RecordVerdict.{right, check, first_fault, judged_verdict};
ghost use Rattle.records.specs.declared.kind.RecordKind.TheVariants.{R70};

use crate::judged::{Fault, Record};
use crate::kind::RecordKind;
use crate::rules::{check, check_number, listed, present};
use refusals::Reason;

// 40, 50 and 51: the number alone.
pub(crate) fn judge_numbered(rec: &[u8; 120], kind: RecordKind, n: u64) -> Result<Record, Fault>
    ensures { judged_verdict result ≡ first_fault (number_checks n rec.now) (right kind 0) }
{
    check_number(rec, n)?;
    Ok(Record { kind, cents: 0 })
}

// 20, 30 and 59: the number, and what stands from 11 on.
pub(crate) fn judge_with_text(
    rec: &[u8; 120],
    kind: RecordKind,
    n: u64,
    last: usize,
) -> Result<Record, Fault>
    ensures { judged_verdict result ≡ first_fault
        (number_checks n rec.now ++ (check (is_present (field 11 last rec.now)) 7 11 ∷ []))
        (right kind 0) }
{
    check_number(rec, n)?;
    present(rec, 11, last)?;
    Ok(Record { kind, cents: 0 })
}

// 70: the number, and the byte at 94.
pub(crate) fn judge_control(rec: &[u8; 120], n: u64) -> Result<Record, Fault>
    ensures { judged_verdict result ≡ first_fault
        (number_checks n rec.now ++ (check (is_listed (byte_at 94 rec.now) (text " PB")) 6 94 ∷ []))
        (right R70 0) }
{
    check_number(rec, n)?;
    check(listed(rec, 94, b" PB"), Reason::NotPermitted, 94)?;
    Ok(Record {
        kind: RecordKind::R70,
        cents: 0,
    })
}
