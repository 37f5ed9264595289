// Record 16, the payee's account.
ghost use Rattle.std.specs.Prelude.{◌≡◌, ◌++◌};
ghost use Rattle.records.specs.Checks.{number_checks, coordinates_checks};
ghost use Rattle.records.specs.Context.{header_of};
ghost use Rattle.records.specs.RecordVerdict.{right, first_fault, judged_verdict};
ghost use Rattle.records.specs.declared.kind.RecordKind.TheVariants.{R16};

use crate::judged::{Fault, Record};
use crate::kind::RecordKind;
use crate::rules::{above_zero, check, check_number, digits, equal_to_abi, present, same};
use refusals::Reason;

pub(crate) fn judge_coordinates(rec: &[u8; 120], n: u64, header: &[u8]) -> Result<Record, Fault>
    ensures { judged_verdict result ≡ first_fault
        (number_checks n rec.now ++ coordinates_checks (header_of header.now).abi rec.now)
        (right R16 0) }
{
    check_number(rec, n)?;
    let italian = same(rec, 11, 12, b"IT");
    check(italian | same(rec, 11, 12, b"SM"), Reason::NotPermitted, 11)?;
    digits(rec, 13, 14)?;
    present(rec, 15, 15)?;
    equal_to_abi(rec, 16, 20, header)?;
    above_zero(rec, 21, 25)?;
    present(rec, 26, 37)?;
    Ok(Record {
        kind: RecordKind::R16,
        cents: 0,
    })
}
