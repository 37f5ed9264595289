// Reading a flow.
ghost use Rattle.std.specs.Prelude.{◌≤◌, true, [], ◌≡◌, length};
ghost use Rattle.records.specs.Context.{header_of};
ghost use Rattle.records.specs.Limits.{most_records};
ghost use Rattle.flow.specs.Judge.{ended, walk_from};
ghost use Rattle.flow.specs.Records.{is_length, records_of};
ghost use Rattle.flow.specs.Judge.{judge as Judge-judge};
ghost use Rattle.flow.specs.Walking.{start, first_by, first_company};
ghost use Rattle.flow.specs.Verdict.{verdict};

use crate::answer::{Refusal, Totals, refused_call};
use crate::casts::as_count;
use crate::fast_path::pass_over;
use crate::limits::MOST_BYTES;
use crate::walk::Walk;
use records::{COMPANY_FIRST, COMPANY_LAST, RecordKind, field};
use refusals::Reason;

// The answer to a flow: its totals where it keeps the rules, and else its first fault. Any bytes, of
// any length.
pub fn read(flow: &[u8]) -> Result<Totals, Refusal>
    ensures { verdict result ≡ Judge-judge flow.now }
{
    if !is_length(flow.len()) {
        return Err(refused_call(Reason::WrongLength));
    }
    let header = &flow[0..120];
    read_records(flow, header)
}

fn is_length(n: usize) -> bool
    ensures { result ≡ is_length n }
{
    n != 0 && n % 120 == 0 && n <= MOST_BYTES
}

// Each record in turn, with the header: by the rules, and then those that are passed over. The index is
// handed on to the fast path, which says where it has stopped.
fn read_records(flow: &[u8], header: &[u8]) -> Result<Totals, Refusal>
    requires { is_length (length flow.now) ≡ true }
    ensures { verdict result ≡ walk_from ended
        (header_of header.now)
        start [] 0 (records_of flow.now) }
{
    let mut walk = Walk::start();
    let mut company = &flow[0..0];
    let mut i = 0;
    while i < flow.len() / 120 {
        let rec = &flow[120 * i..120 * i + 120];
        let n = as_count(i + 1);
        match walk.judge(rec, n, header, company) {
            Err(fault) => {
                return Err(Refusal {
                    reason: fault.reason,
                    record: n,
                    position: fault.position,
                });
            }
            Ok(right) => {
                let code = field(rec, COMPANY_FIRST, COMPANY_LAST);
                company = first_company(company, code, right.kind);
                walk = walk.next(right, rec);
            }
        }
        let passed = pass_over(flow, i + 1, walk);
        walk = passed.walk;
        i = passed.index;
    }
    end(walk, as_count(i))
}

// The company code of the first record 14, after a record of the kind that has the code at 92-96: one of
// the two slices, as it was lent. `company` is empty until a 14 has come, and no
// Option, since `EntryPoints` has a law on this and on `Walk::judge`.
pub fn first_company<'a>(company: &'a [u8], code: &'a [u8], kind: RecordKind) -> &'a [u8]
    ensures bytes { result.now ≡ first_company company.now kind code.now }
    ensures place { result.ref_ptr ≡ first_by company.now kind company.entry.ref_ptr code.entry.ref_ptr }
{
    if !records::opens(kind) {
        return company;
    }
    if company.len() == 0 {
        return code;
    }
    company
}

// The answer after the last of n records.
fn end(walk: Walk, n: u64) -> Result<Totals, Refusal>
    requires { n ≤ most_records }
    ensures { verdict result ≡ ended walk n }
{
    if walk.complete() {
        return Ok(walk.totals(n));
    }
    Err(Refusal {
        reason: Reason::Ended,
        record: n + 1,
        position: 0,
    })
}
