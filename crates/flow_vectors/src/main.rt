// Runs the reader and the question where a disposition is over the vectors on standard input, and
// writes a line for each line. The vectors and the lines due are written by the second program
// (`oracle vectors flow`, which says the format).
#![tactic(auto)]

mod location;

use reading::{buffer, read_full};
use report::Told;
use std::io;
use vector_lines::{Held, Lines, decimal};

// What lies beyond the first 655,360 bytes is not read, and a read that fails counts as the end.
fn main(rt: HostRuntime) -> io::Result<()> {
    let mut text = buffer::<u8, 655360>();
    let mut held = Held::<131072>::new();
    let n = read_full(&mut rt.stdin(), &mut text);
    for line in Lines::of(&text[..n]) {
        answer(&rt, line, &mut held)?;
    }
    Ok(())
}

// `#` and a name, `=` and a flow, `?` and a number, or none of these. The latest flow is held, cut to N
// bytes.
fn answer<const N: usize>(rt: &impl Print, line: &[u8], held: &mut Held<N>) -> io::Result<()> {
    match line {
        [b'#', ..] => printing::line(rt, line),
        [b'=', text @ ..] => {
            held.take_over(text);
            println!(rt; "{}", Told(flow::read(held.bytes())))
        }
        [b'?', text @ ..] => location::print(rt, held.bytes(), decimal(text)),
        _ => println!(rt; "unknown"),
    }
}
