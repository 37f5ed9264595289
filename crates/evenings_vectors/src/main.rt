// Compares two evenings' flows over the vectors on standard input, and writes a line for each line. The
// vectors and the lines due are written by the second program (`oracle vectors evenings`, which says the
// format).
#![tactic(auto)]

mod account;
mod asked;
mod flows;
mod work;

use crate::flows::Evenings;
use reading::{buffer, read_full};
use std::io;
use vector_lines::Lines;

// What lies beyond the first 655,360 bytes is not read, and a read that fails counts as the end.
fn main(rt: HostRuntime) -> io::Result<()> {
    let mut text = buffer::<u8, 655360>();
    let mut evenings = Evenings::new();
    let n = read_full(&mut rt.stdin(), &mut text);
    for line in Lines::of(&text[..n]) {
        evenings.answer(&rt, line)?;
    }
    Ok(())
}
