// The C interface: the library's calls under plain names, for programs in C or Rust to link.
//
// A slice is a pointer and a length, and `answer` a pointer to eight numbers of 64 bits. Each function is
// the one of `capi` of the same name, and promises what that one promises, in the same words: C needs the
// exported names, and the laws of `claims` are on functions of a library.
#![tactic(auto)]

ghost use Rattle.std.specs.Prelude.{◌≡◌, length};
ghost use Rattle.fields.specs.Amount.{amount_field};
ghost use Rattle.fields.specs.Date.{date_field};
ghost use Rattle.fields.specs.Digits.{digit_field};
ghost use Rattle.flow.specs.Find.{find};
ghost use Rattle.flow.specs.Judge.{judge};
ghost use Rattle.list.specs.ReadBack.{read_back};
ghost use Rattle.list.specs.Write.{write};
ghost use Rattle.amend.specs.Change.{change};
ghost use Rattle.amend.specs.Withdraw.{withdraw};
ghost use Rattle.evenings.specs.Compare.{compare, judge_comparison, work_after, find_line};
ghost use Rattle.capi.specs.Returned.{returned, of_number, of_day, of_verdict, of_found, of_output, of_change, of_withdrawal, of_compared, of_line};

// The number that a field of 1 to 15 digits gives; or 5.
#[unsafe(no_mangle)]
pub extern "C" fn mav_digits(field: &[u8], answer: &mut [u64; 8]) -> u8
    ensures { returned result answer.new ≡ of_number (digit_field field.now) }
{
    capi::mav_digits(field, answer)
}

// The cents that a field of thirteen digits gives, above zero; or 5, then 25.
#[unsafe(no_mangle)]
pub extern "C" fn mav_amount(field: &[u8], answer: &mut [u64; 8]) -> u8
    ensures { returned result answer.new ≡ of_number (amount_field field.now) }
{
    capi::mav_amount(field, answer)
}

// Whether six digits are a day of the calendar, with no number to tell; or 5, then 8.
#[unsafe(no_mangle)]
pub extern "C" fn mav_date(field: &[u8], answer: &mut [u64; 8]) -> u8
    ensures { returned result answer.new ≡ of_day (date_field field.now) }
{
    capi::mav_date(field, answer)
}

// Reads a flow: its dispositions, cents, records and kind; or its first fault.
#[unsafe(no_mangle)]
pub extern "C" fn mav_read(flow: &[u8], answer: &mut [u64; 8]) -> u8
    ensures { returned result answer.new ≡ of_verdict (judge flow.now) 0 }
{
    capi::mav_read(flow, answer)
}

// Where disposition k stands: its first record, its number of records and its cents; or refused.
#[unsafe(no_mangle)]
pub extern "C" fn mav_find(flow: &[u8], k: u64, answer: &mut [u64; 8]) -> u8
    ensures { returned result answer.new ≡ of_found (find flow.now k) }
{
    capi::mav_find(flow, k, answer)
}

// Writes the flow that a list encodes at the front of out, and tells its length: 0 where it is refused.
#[unsafe(no_mangle)]
pub extern "C" fn mav_write(list: &[u8], out: &mut [u8], answer: &mut [u64; 8]) -> u8
    ensures answer_after { returned result answer.new ≡ of_output (write list.now out.old) }
    ensures out_after { out.new ≡ (write list.now out.old).bytes }
{
    capi::mav_write(list, out, answer)
}

// Writes a flow's list at the front of out, and tells its length: 0 where it is refused.
#[unsafe(no_mangle)]
pub extern "C" fn mav_list(flow: &[u8], out: &mut [u8], answer: &mut [u64; 8]) -> u8
    ensures answer_after { returned result answer.new ≡ of_output (read_back flow.now out.old) }
    ensures out_after { out.new ≡ (read_back flow.now out.old).bytes }
{
    capi::mav_list(flow, out, answer)
}

// Gives disposition k the amount.
#[unsafe(no_mangle)]
pub extern "C" fn mav_change(flow: &mut [u8], k: u64, cents: u64, answer: &mut [u64; 8]) -> u8
    ensures answer_after { returned result answer.new ≡ of_change (change flow.old k cents) }
    ensures flow_after { flow.new ≡ (change flow.old k cents).bytes }
{
    capi::mav_change(flow, k, cents, answer)
}

// Takes disposition k out, and tells the length of the flow left: where it is refused, the length lent.
#[unsafe(no_mangle)]
pub extern "C" fn mav_withdraw(flow: &mut [u8], k: u64, answer: &mut [u64; 8]) -> u8
    ensures answer_after { returned result answer.new ≡ of_withdrawal (withdraw flow.old k) }
    ensures flow_after { flow.new ≡ (withdraw flow.old k).bytes }
{
    capi::mav_withdraw(flow, k, answer)
}

// Compares two flows: how many requests are kept, dropped and added, and the length of the account that is
// written at the front of account; 0 where it is refused.
#[unsafe(no_mangle)]
pub extern "C" fn mav_compare(
    old: &[u8],
    new: &[u8],
    work: &mut [u16],
    account: &mut [u8],
    answer: &mut [u64; 8],
) -> u8
    ensures answer_after { returned result answer.new ≡ of_compared (compare old.now new.now (length work.old) account.old) }
    ensures account_after { account.new ≡ (compare old.now new.now (length work.old) account.old).bytes }
    ensures work_after { work.new ≡ work_after (judge_comparison old.now new.now (length work.old) (length account.old)) work.old }
{
    capi::mav_compare(old, new, work, account, answer)
}

// What line n of that account tells: its letter, and the number of its record 14 in its flow.
#[unsafe(no_mangle)]
pub extern "C" fn mav_compare_line(
    old: &[u8],
    new: &[u8],
    work: &mut [u16],
    n: u64,
    answer: &mut [u64; 8],
) -> u8
    ensures answer_after { returned result answer.new ≡ of_line (find_line old.now new.now (length work.old) n) }
    ensures work_after { work.new ≡ work_after (find_line old.now new.now (length work.old) n) work.old }
{
    capi::mav_compare_line(old, new, work, n, answer)
}
