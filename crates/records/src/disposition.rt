// Record 14, which opens a disposition.
ghost use Rattle.std.specs.Prelude.{◌≡◌, ◌++◌, IfOk};
ghost use Rattle.fields.specs.Digits.{number};
ghost use Rattle.records.specs.Amount.{amount_in};
ghost use Rattle.records.specs.Checks.{number_checks, payment_checks, disposition_checks};
ghost use Rattle.records.specs.Context.{header_of};
ghost use Rattle.records.specs.RecordVerdict.{right, first_fault, judged_verdict, Settles};
ghost use Rattle.records.specs.declared.kind.RecordKind.TheVariants.{R14};

use crate::constants::{COMPANY_FIRST, COMPANY_LAST, CURRENCY};
use crate::flow_kind::{FlowKind, is_of, kind_in, sign_of};
use crate::judged::{Fault, Record};
use crate::kind::RecordKind;
use crate::position::field;
use crate::rules::{
    agreeing, amount_or_fault, blank_or_digits, check, check_number, date, equal_to_abi, listed,
    same,
};
use refusals::Reason;

pub(crate) fn judge_disposition(
    rec: &[u8; 120],
    n: u64,
    header: &[u8],
    company: &[u8],
    found: Option<FlowKind>,
) -> Result<Record, Fault>
    ensures { judged_verdict result ≡ first_fault
        (number_checks n rec.now
        ++ disposition_checks (header_of header.now).abi company.now found rec.now)
        (right R14 (number (amount_in rec.now))) }
{
    let cents = judge_payment(rec, n, found)?;
    equal_to_abi(rec, 48, 52, header)?;
    blank_or_digits(rec, 53, 57)?;
    let code = field(rec, COMPANY_FIRST, COMPANY_LAST);
    check(agreeing(company, code), Reason::OtherCompany, 92)?;
    check(listed(rec, 97, b" 1234569"), Reason::NotPermitted, 97)?;
    check(same(rec, 120, 120, &CURRENCY), Reason::NotPermitted, 120)?;
    Ok(Record {
        kind: RecordKind::R14,
        cents,
    })
}

// Its rows up to 47: the number, and what is to be paid, which is the answer. They stand apart so that what comes after them is
// compiled in place: the compiler takes a call after that many tests for a rare one.
fn judge_payment(rec: &[u8; 120], n: u64, found: Option<FlowKind>) -> Result<u64, Fault>
    ensures checked { Settles result (number_checks n rec.now ++ payment_checks found rec.now) }
    ensures value { IfOk result (λ v. v ≡ number (amount_in rec.now)) }
{
    check_number(rec, n)?;
    date(rec, 23)?;
    let told = kind_in(rec);
    let Some(own) = told else {
        return Err(Fault {
            reason: Reason::NotPermitted,
            position: 29,
        });
    };
    check(is_of(rec, found), Reason::OtherKind, 29)?;
    let cents = amount_or_fault(rec)?;
    let sign = sign_of(own);
    check(same(rec, 47, 47, &sign), Reason::NotPermitted, 47)?;
    Ok(cents)
}
