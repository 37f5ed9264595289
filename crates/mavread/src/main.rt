// Reads one flow from standard input and writes its answer, one line (document 01, "The small
// program"). The flow is judged in the buffer that it is read into. A read that fails counts as the
// end of the input.
#![tactic(auto)]

use reading::{buffer, read_full};
use report::Told;
use std::io;

// 546 records.
const MOST_BYTES: usize = 65520;

// The buffer holds more than a flow may have, so that one byte too many is seen. What lies beyond the
// buffer is never read: it is too long by then.
fn main(rt: HostRuntime) -> io::Result<()> {
    let mut space = buffer::<u8, 65536>();
    let n = read_full(&mut rt.stdin(), &mut space);
    if MOST_BYTES < n {
        println!(rt; "too long for this program")
    } else {
        println!(rt; "{}", Told(flow::read(&space[..n])))
    }
}
