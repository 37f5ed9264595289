// A line of the account that is asked for, and the line that tells it.
use crate::work::Work;
use evenings::AccountLine;
use report::{Refused, print_start};
use std::io;

// The most records of a flow that there is room for: 262,144 bytes.
const MOST: u64 = 2184;

// `line D record 2 part 120 " 140000001" at 120 of old zero 66049 as before 64`: letter and record, the length
// and the first bytes of the part, where it stands, and the working memory; or `refused 15 record 0 position 0
// part 0 as before 66113`.
pub(crate) fn print(
    rt: &impl Print,
    old: &[u8],
    new: &[u8],
    work: &mut Work,
    n: u64,
) -> io::Result<()> {
    let part = work.line(old, new, n);
    let after_line = work.seen();
    let found = work.find_line(old, new, n);
    let left = after_line.both(work.seen());
    match found {
        Ok(told) => {
            print_line(rt, told, part)?;
            work.print_zero(rt, left)?;
        }
        Err(refusal) => {
            print!(rt; "{} part {}", Refused(refusal), part.len())?;
            work.print_before(rt, left)?;
        }
    }
    println!(rt)
}

fn print_line(rt: &impl Print, told: AccountLine, part: &[u8]) -> io::Result<()> {
    let letter = char::from(told.letter);
    let record = told.record;
    print!(rt; "line {letter} record {record} part {}", part.len())?;
    print_start(rt, part)?;
    let flow = if told.letter == b'D' { "old" } else { "new" };
    print!(rt; " at {} of {flow}", offset(record))
}

// The index of a record's first byte, by the record's number from 1; 0 for a number that no record has.
fn offset(record: u64) -> u64 {
    match record {
        1..=MOST => 120 * (record - 1),
        _ => 0,
    }
}
