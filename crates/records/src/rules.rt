// What the table of checks says of one field: tests, and checks that end the judgement of a record by its
// first fault. A field is told by its first and its last position, two numbers as in that table: of a type
// of its own each would be a value to be built first, in lines that say no more. That they lie within a
// record is seen of the numbers in each line.
ghost use Rattle.std.specs.Prelude.{◌+◌, ◌≤◌, not, ◌||◌, ◌≡◌, [], ◌∷◌, eqb, IfOk};
ghost use Rattle.fields.specs.Amount.{amount_field};
ghost use Rattle.fields.specs.FieldVerdict.{field_verdict};
ghost use Rattle.fields.specs.Bytes.{is_blank, is_equal};
ghost use Rattle.fields.specs.Digits.{is_digits, is_above_zero};
ghost use Rattle.fields.specs.Digits.{number as Digits-number};
ghost use Rattle.refusals.specs.Numbers.{number_of};
ghost use Rattle.records.specs.Amount.{amount_in};
ghost use Rattle.records.specs.Field.{byte_at};
ghost use Rattle.records.specs.Field.{field as Field-field};
ghost use Rattle.records.specs.Context.{header_of};
ghost use Rattle.records.specs.Checks.{is_present, is_date, is_listed, number_checks, amount_checks};
ghost use Rattle.records.specs.Company.{agrees};
ghost use Rattle.records.specs.FieldTests.{Fits};
ghost use Rattle.records.specs.RecordVerdict.{Settles, placed};
ghost use Rattle.records.specs.RecordVerdict.{check as RecordVerdict-check};

use crate::constants::{AMOUNT_FIRST, AMOUNT_LAST};
use crate::judged::Fault;
use crate::position::field;
use fields::Day;
use refusals::Reason;

// Goes on where the test holds, and else ends with the fault.
pub(crate) fn check(holds: bool, reason: Reason, position: u64) -> Result<(), Fault>
    ensures { Settles result (RecordVerdict-check holds (number_of reason) position ∷ []) }
{
    if holds {
        Ok(())
    } else {
        Err(Fault { reason, position })
    }
}

// The answer of a field's rule, as that of the field that starts at the position.
fn at<T>(position: usize, found: Result<T, Reason>) -> Result<T, Fault>
    ensures { result ≡ placed position found }
{
    found.map_err(|reason| Fault {
        reason,
        position: position as u64,
    })
}

pub(crate) fn blank(rec: &[u8], first: usize, last: usize) -> bool
    ensures { result ≡ is_blank (Field-field first last rec.now) }
{
    fields::all_blank(field(rec, first, last))
}

pub(crate) fn same(rec: &[u8], first: usize, last: usize, other: &[u8]) -> bool
    ensures { result ≡ is_equal (Field-field first last rec.now) other.now }
{
    fields::equal(field(rec, first, last), other)
}

// Whether the byte at the position is one of those listed.
pub(crate) fn listed(rec: &[u8; 120], position: usize, bytes: &[u8]) -> bool
    requires { Fits position position }
    ensures { result ≡ is_listed (byte_at position rec.now) bytes.now }
{
    let b = rec[position - 1];
    bytes.iter().any(|listed| b == *listed)
}

// Whether a company code is that of the flow's first record 14, blanks like any other bytes. `company` is
// empty where none came before, and any code then agrees.
pub(crate) fn agreeing(company: &[u8], found: &[u8]) -> bool
    ensures { result ≡ agrees company.now found.now }
{
    company.len() == 0 || fields::equal(found, company)
}

// The amount of the disposition that the record opens, or else the refusal, by the rule of amounts.
pub fn amount(rec: &[u8]) -> Result<u64, Reason>
    ensures { field_verdict result ≡ amount_field (amount_in rec.now) }
{
    fields::read_amount(field(rec, AMOUNT_FIRST, AMOUNT_LAST))
}

// Not all blank, or else 7.
pub(crate) fn present(rec: &[u8], first: usize, last: usize) -> Result<(), Fault>
    ensures { Settles result (RecordVerdict-check (is_present (Field-field first last rec.now)) 7 first ∷ []) }
{
    check(!blank(rec, first, last), Reason::Absent, first as u64)
}

// What the header has at the positions, or else 10.
pub(crate) fn as_in_header(
    rec: &[u8],
    first: usize,
    last: usize,
    header: &[u8],
) -> Result<(), Fault>
    ensures { Settles result
        (RecordVerdict-check (is_equal (Field-field first last rec.now) (Field-field first last header.now)) 10 first ∷ []) }
{
    let copied = same(rec, first, last, field(header, first, last));
    check(copied, Reason::NotTheHeaders, first as u64)
}

// The number that digits give, or else 5.
pub(crate) fn digits(rec: &[u8; 120], first: usize, last: usize) -> Result<u64, Fault>
    requires { Fits first last }
    ensures checked { Settles result (RecordVerdict-check (is_digits (Field-field first last rec.now)) 5 first ∷ []) }
    ensures value { IfOk result (λ v. v ≡ Digits-number (Field-field first last rec.now)) }
{
    at(first, fields::read_digits(field(rec, first, last)))
}

pub(crate) fn all_digits(rec: &[u8; 120], first: usize, last: usize) -> bool
    requires { Fits first last }
    ensures { result ≡ is_digits (Field-field first last rec.now) }
{
    digits(rec, first, last).is_ok()
}

// All blank, or digits, or else 5.
pub(crate) fn blank_or_digits(rec: &[u8; 120], first: usize, last: usize) -> Result<(), Fault>
    requires { Fits first last }
    ensures { Settles result
        (RecordVerdict-check (is_blank (Field-field first last rec.now) || is_digits (Field-field first last rec.now)) 5 first ∷ []) }
{
    let right = blank(rec, first, last) || all_digits(rec, first, last);
    check(right, Reason::NotDigits, first as u64)
}

// The date in the six bytes from first on, or else 5, then 8.
pub(crate) fn date(rec: &[u8; 120], first: usize) -> Result<Day, Fault>
    requires { Fits first (first + 5) }
    ensures { Settles result
        (RecordVerdict-check (is_digits (Field-field first (first + 5) rec.now)) 5 first
        ∷ RecordVerdict-check (is_date (Field-field first (first + 5) rec.now)) 8 first
        ∷ []) }
{
    at(first, fields::read_date(field(rec, first, first + 5)))
}

// The amount in a record 14, or else 5, then 25.
pub(crate) fn amount_or_fault(rec: &[u8; 120]) -> Result<u64, Fault>
    ensures checked { Settles result (amount_checks rec.now) }
    ensures value { IfOk result (λ v. v ≡ Digits-number (amount_in rec.now)) }
{
    at(AMOUNT_FIRST, amount(rec))
}

// Digits that give the value due, or else 5, then the reason handed in.
pub(crate) fn digits_equal_to(
    rec: &[u8; 120],
    first: usize,
    last: usize,
    value: u64,
    reason: Reason,
) -> Result<(), Fault>
    requires { Fits first last }
    ensures { Settles result
        (RecordVerdict-check (is_digits (Field-field first last rec.now)) 5 first
        ∷ RecordVerdict-check (eqb (Digits-number (Field-field first last rec.now)) value) (number_of reason) first
        ∷ []) }
{
    let found = digits(rec, first, last)?;
    check(found == value, reason, first as u64)
}

// 4-10 of every record of a disposition: its number.
pub(crate) fn check_number(rec: &[u8; 120], n: u64) -> Result<(), Fault>
    ensures { Settles result (number_checks n rec.now) }
{
    digits_equal_to(rec, 4, 10, n, Reason::WrongNumber)
}

// Digits that are the header's ABI, or else 5, then 10.
pub(crate) fn equal_to_abi(
    rec: &[u8; 120],
    first: usize,
    last: usize,
    header: &[u8],
) -> Result<(), Fault>
    requires { Fits first last }
    ensures { Settles result
        (RecordVerdict-check (is_digits (Field-field first last rec.now)) 5 first
        ∷ RecordVerdict-check (is_equal (Field-field first last rec.now) (header_of header.now).abi) 10 first
        ∷ []) }
{
    digits(rec, first, last)?;
    let own = same(rec, first, last, field(header, 9, 13));
    check(own, Reason::NotTheHeaders, first as u64)
}

// Digits above zero, or else 5, then 6.
pub(crate) fn above_zero(rec: &[u8; 120], first: usize, last: usize) -> Result<(), Fault>
    requires { Fits first last }
    ensures { Settles result
        (RecordVerdict-check (is_digits (Field-field first last rec.now)) 5 first
        ∷ RecordVerdict-check (is_above_zero (Digits-number (Field-field first last rec.now))) 6 first
        ∷ []) }
{
    let found = digits(rec, first, last)?;
    check(found != 0, Reason::NotPermitted, first as u64)
}
