// What is found of an output after a call.
use flow::Refusal;
use list::Filled;
use printing::Quoted;
use report::Told;
use std::io;
use vector_memory::{adler, least, print_kept};

// Above this length the checksum and the last record stand for the bytes.
const SHOWN: usize = 16384;

// The answer, the length, whether the bytes after it are as before, and the bytes written. A refused
// call has written none. A length above the room counts as the room.
pub(crate) fn print(
    rt: &impl Print,
    answer: Result<Filled, Refusal>,
    out: &[u8],
    room: usize,
) -> io::Result<()> {
    let length = answer.map_or(0, |filled| filled.length);
    let n = least(length, room.min(out.len()));
    let told = Told(answer.map(|filled| filled.totals));
    print!(rt; "{told} length {length}")?;
    print_kept(rt, out, n)?;
    if 0 < n {
        written(rt, &out[..n])?;
    }
    println!(rt)
}

fn written(rt: &impl Print, bytes: &[u8]) -> io::Result<()> {
    if bytes.len() <= SHOWN {
        return print!(rt; " {}", Quoted(bytes));
    }
    let last = &bytes[bytes.len() - 120..];
    print!(rt; " adler {} {}", adler(bytes), Quoted(last))
}
