// The line that says where a disposition is.
use report::{Refused, print_start};
use std::io;

// `found first 2 records 7 cents 45000 part 840 " 140000001" " 700000001"`, with the length of the
// part and the first bytes of it and of its last record; or `refused 15 record 0 position 0 part 0`.
pub(crate) fn print(rt: &impl Print, bytes: &[u8], k: u64) -> io::Result<()> {
    let part = flow::disposition(bytes, k);
    let size = part.len();
    match flow::find(bytes, k) {
        Ok(location) => {
            let first = location.first;
            let records = location.records;
            let cents = location.cents;
            print!(rt; "found first {first} records {records} cents {cents} part {size}")?;
            print_start(rt, part)?;
            print_start(rt, last_record(part))?;
            println!(rt)
        }
        Err(refusal) => println!(rt; "{} part {size}", Refused(refusal)),
    }
}

// The last 120 bytes, or all where there are fewer.
fn last_record(part: &[u8]) -> &[u8] {
    &part[part.len().saturating_sub(120)..]
}
