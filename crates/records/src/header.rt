// Record IM, the header.
ghost use Rattle.std.specs.Prelude.{◌≡◌};
ghost use Rattle.records.specs.Checks.{header_checks};
ghost use Rattle.records.specs.RecordVerdict.{right, first_fault, judged_verdict};
ghost use Rattle.records.specs.declared.kind.RecordKind.TheVariants.{Im};

use crate::constants::CURRENCY;
use crate::judged::{Fault, Record};
use crate::kind::RecordKind;
use crate::rules::{all_digits, blank, check, date, digits, present, same};
use refusals::Reason;

pub(crate) fn judge_header(rec: &[u8; 120]) -> Result<Record, Fault>
    ensures { judged_verdict result ≡ first_fault (header_checks rec.now) (right Im 0) }
{
    present(rec, 4, 8)?;
    digits(rec, 9, 13)?;
    date(rec, 14)?;
    present(rec, 20, 39)?;
    let unused = blank(rec, 105, 111);
    check(
        unused | same(rec, 105, 105, b"1"),
        Reason::NotPermitted,
        105,
    )?;
    check(
        unused | same(rec, 106, 106, b"$"),
        Reason::NotPermitted,
        106,
    )?;
    check(unused | all_digits(rec, 107, 111), Reason::NotDigits, 107)?;
    check(same(rec, 114, 114, &CURRENCY), Reason::NotPermitted, 114)?;
    Ok(Record {
        kind: RecordKind::Im,
        cents: 0,
    })
}
