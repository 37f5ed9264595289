// The library's calls with one form of answer, which the crate `capi_c` exports to C.
//
// Each function returns 1 where the call is accepted and 0 where it is refused, and writes all eight
// entries of `answer`: of an accepted call three numbers, of a refused one number, record and position;
// then the length where the call has one, else 0; then the kind of flow, 1 requests and 2 recalls, where
// an accepted call tells it, else 0; then three zeros. No function has a `requires`, and a refused call
// writes nothing but `answer`.
#![tactic(auto)]

ghost use Rattle.std.specs.Prelude.{◌≡◌, ℕ, List, length};
ghost use Rattle.fields.specs.Amount.{amount_field};
ghost use Rattle.fields.specs.FieldVerdict.{field_verdict};
ghost use Rattle.fields.specs.Date.{date_field};
ghost use Rattle.fields.specs.Digits.{digit_field};
ghost use Rattle.flow.specs.Find.{find};
ghost use Rattle.flow.specs.Judge.{judge};
ghost use Rattle.list.specs.Output.{filled_output};
ghost use Rattle.list.specs.ReadBack.{read_back};
ghost use Rattle.list.specs.Write.{write};
ghost use Rattle.amend.specs.Change.{change};
ghost use Rattle.amend.specs.Withdraw.{withdraw};
ghost use Rattle.evenings.specs.Compare.{compare, judge_comparison, work_after, find_line};
ghost use Rattle.capi.specs.Returned.{returned, of_number, of_day, of_verdict, of_found, of_output, of_change, of_withdrawal, of_compared, of_line};

mod answer;

use answer::{accept, accept_flow, refuse, refuse_by_number, tell};
use flow::{Refusal, refusal_of_call};
use list::Filled;
use refusals::Reason;

// The number that a field of 1 to 15 digits gives; or 5.
pub fn mav_digits(field: &[u8], answer: &mut [u64; 8]) -> u8
    ensures { returned result answer.new ≡ of_number (digit_field field.now) }
{
    tell_number(answer, fields::read_digits(field))
}

// The cents that a field of thirteen digits gives, above zero; or 5, then 25.
pub fn mav_amount(field: &[u8], answer: &mut [u64; 8]) -> u8
    ensures { returned result answer.new ≡ of_number (amount_field field.now) }
{
    tell_number(answer, fields::read_amount(field))
}

// Whether six digits are a day of the calendar, with no number to tell; or 5, then 8.
pub fn mav_date(field: &[u8], answer: &mut [u64; 8]) -> u8
    ensures { returned result answer.new ≡ of_day (date_field field.now) }
{
    match fields::read_date(field) {
        Ok(_) => accept(answer, 0, 0, 0, 0),
        Err(reason) => refuse_by_number(answer, refusal_of_call(reason.number()), 0),
    }
}

// Reads a flow: its dispositions, cents, records and kind; or its first fault.
pub fn mav_read(flow: &[u8], answer: &mut [u64; 8]) -> u8
    ensures { returned result answer.new ≡ of_verdict (judge flow.now) 0 }
{
    tell(answer, flow::read(flow), 0)
}

// Where disposition k stands: its first record, its number of records and its cents; or refused.
pub fn mav_find(flow: &[u8], k: u64, answer: &mut [u64; 8]) -> u8
    ensures { returned result answer.new ≡ of_found (find flow.now k) }
{
    match flow::find(flow, k) {
        Ok(location) => accept(answer, location.first, location.records, location.cents, 0),
        Err(refusal) => refuse(answer, refusal, 0),
    }
}

// Writes the flow that a list encodes at the front of out, and tells its length: 0 where it is refused.
pub fn mav_write(list: &[u8], out: &mut [u8], answer: &mut [u64; 8]) -> u8
    ensures answer_after { returned result answer.new ≡ of_output (write list.now out.old) }
    ensures out_after { out.new ≡ (write list.now out.old).bytes }
{
    tell_filled(answer, list::write(list, out))
}

// Writes a flow's list at the front of out, and tells its length: 0 where it is refused.
pub fn mav_list(flow: &[u8], out: &mut [u8], answer: &mut [u64; 8]) -> u8
    ensures answer_after { returned result answer.new ≡ of_output (read_back flow.now out.old) }
    ensures out_after { out.new ≡ (read_back flow.now out.old).bytes }
{
    tell_filled(answer, list::read_back(flow, out))
}

// Gives disposition k the amount.
pub fn mav_change(flow: &mut [u8], k: u64, cents: u64, answer: &mut [u64; 8]) -> u8
    ensures answer_after { returned result answer.new ≡ of_change (change flow.old k cents) }
    ensures flow_after { flow.new ≡ (change flow.old k cents).bytes }
{
    tell(answer, amend::change(flow, k, cents), 0)
}

// Takes disposition k out, and tells the length of the flow left: where it is refused, the length lent.
pub fn mav_withdraw(flow: &mut [u8], k: u64, answer: &mut [u64; 8]) -> u8
    ensures answer_after { returned result answer.new ≡ of_withdrawal (withdraw flow.old k) }
    ensures flow_after { flow.new ≡ (withdraw flow.old k).bytes }
{
    match amend::withdraw(flow, k) {
        Ok(left) => accept_flow(answer, left.totals, left.length),
        Err(refusal) => refuse(answer, refusal, flow::as_count(flow.len())),
    }
}

// Compares two flows: how many requests are kept, dropped and added, and the length of the account that is
// written at the front of account; 0 where it is refused.
pub fn mav_compare(
    old: &[u8],
    new: &[u8],
    work: &mut [u16],
    account: &mut [u8],
    answer: &mut [u64; 8],
) -> u8
    ensures answer_after { returned result answer.new ≡ of_compared (compare old.now new.now (length work.old) account.old) }
    ensures account_after { account.new ≡ (compare old.now new.now (length work.old) account.old).bytes }
    ensures work_after { work.new ≡ work_after (judge_comparison old.now new.now (length work.old) (length account.old)) work.old }
{
    match evenings::compare(old, new, work, account) {
        Ok(told) => {
            let lines = told.lines;
            accept(answer, lines.kept, lines.dropped, lines.added, told.length)
        }
        Err(refusal) => refuse(answer, refusal, 0),
    }
}

// What line n of that account tells: its letter, and the number of its record 14 in its flow.
pub fn mav_compare_line(
    old: &[u8],
    new: &[u8],
    work: &mut [u16],
    n: u64,
    answer: &mut [u64; 8],
) -> u8
    ensures answer_after { returned result answer.new ≡ of_line (find_line old.now new.now (length work.old) n) }
    ensures work_after { work.new ≡ work_after (find_line old.now new.now (length work.old) n) work.old }
{
    match evenings::find_line(old, new, work, n) {
        Ok(line) => accept(answer, u64::from(line.letter), line.record, 0, 0),
        Err(refusal) => refuse(answer, refusal, 0),
    }
}

// Writes what a digit field or an amount answers.
fn tell_number(answer: &mut [u64; 8], told: Result<u64, Reason>) -> u8
    ensures { returned result answer.new ≡ of_number (field_verdict told) }
{
    match told {
        Ok(value) => accept(answer, value, 0, 0, 0),
        Err(reason) => refuse_by_number(answer, refusal_of_call(reason.number()), 0),
    }
}

// Writes what a call answers that has filled an output, whatever it has left there.
fn tell_filled(answer: &mut [u64; 8], told: Result<Filled, Refusal>) -> u8
    ensures { (out : List ℕ) → returned result answer.new ≡ of_output (filled_output told out) }
{
    match told {
        Ok(filled) => accept_flow(answer, filled.totals, filled.length),
        Err(refusal) => refuse(answer, refusal, 0),
    }
}
