// Runs the field rules over the vectors on standard input, one case a line, and writes a line for
// each; then over all strings of six digits, and writes how many of them are dates. The vectors and
// the lines due are written by the second program (`oracle vectors fields`, which says the format).
#![tactic(auto)]

mod case;
mod hex;

use reading::{buffer, read_full};
use std::io;
use vector_lines::Lines;

// What lies beyond the first 65,536 bytes is not read, and a read that fails counts as the end.
fn main(rt: HostRuntime) -> io::Result<()> {
    let mut text = buffer::<u8, 65536>();
    let n = read_full(&mut rt.stdin(), &mut text);
    for line in Lines::of(&text[..n]) {
        answer(&rt, line)?;
    }
    case::six_digits(&rt)
}

// One case: a letter, then its bytes in hexadecimal.
fn answer(rt: &impl Print, line: &[u8]) -> io::Result<()> {
    let Some((kind, text)) = line.split_first() else {
        return Ok(());
    };
    let mut space = [0; 64];
    let n = hex::decode(text, &mut space);
    let bytes = &space[..n];
    match *kind {
        b'n' => case::number(rt, fields::read_digits(bytes)),
        b'a' => case::number(rt, fields::read_amount(bytes)),
        b'd' => case::date(rt, fields::read_date(bytes)),
        b'w' => case::written(rt, bytes),
        b'b' => case::flag(rt, fields::all_blank(bytes)),
        b'e' => case::compared(rt, bytes),
        _ => println!(rt; "unknown"),
    }
}
