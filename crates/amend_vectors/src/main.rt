// Runs amount changes and withdrawals over the vectors on standard input, and writes a line for each
// line. The vectors and the lines due are written by the second program (`oracle vectors amend`, which
// says the format).
#![tactic(auto)]

mod memory;

use crate::memory::Memory;
use reading::{buffer, read_full};
use std::io;
use vector_lines::{Lines, decimal};

// What lies beyond the first 655,360 bytes is not read, and a read that fails counts as the end.
fn main(rt: HostRuntime) -> io::Result<()> {
    let mut text = buffer::<u8, 655360>();
    let mut memory = Memory::new();
    let n = read_full(&mut rt.stdin(), &mut text);
    for line in Lines::of(&text[..n]) {
        answer(&rt, line, &mut memory)?;
    }
    Ok(())
}

// `#` and a name, `=` and a flow, `!` or `-` and a call, `@` and the number of a record, or none of
// these.
fn answer(rt: &impl Print, line: &[u8], memory: &mut Memory) -> io::Result<()> {
    match line {
        [b'#', ..] => printing::line(rt, line),
        [b'=', text @ ..] => {
            memory.begin(text);
            memory.tell(rt)
        }
        [b'!', text @ ..] => {
            memory.change(rt, text)?;
            memory.tell(rt)
        }
        [b'-', text @ ..] => {
            memory.withdraw(rt, text)?;
            memory.tell(rt)
        }
        [b'@', text @ ..] => memory.print_record(rt, decimal(text)),
        _ => println!(rt; "unknown"),
    }
}
