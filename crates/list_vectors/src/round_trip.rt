// A list to a flow and back, or a flow to its list and back.
use crate::call::Way;
use flow::Refusal;
use report::Refused;
use std::io;
use vector_memory::{least, mark};

// `there 1920 back 1236 same`, or where the bytes that came back first differ from those given, as
// `there 1236 back 1920 differs at 226`; or the refusal of the call that was refused.
pub(crate) fn print(
    rt: &impl Print,
    way: Way,
    other: Way,
    given: &[u8],
    between: &mut [u8],
    out: &mut [u8],
) -> io::Result<()> {
    match lengths(way, other, given, between, out) {
        Ok((there, back)) => {
            print!(rt; "there {there} back {back}")?;
            let n = least(back, out.len());
            compared(rt, given, &out[..n])
        }
        Err(refusal) => println!(rt; "{}", Refused(refusal)),
    }
}

// The length of what is filled first, and of what is filled from it.
fn lengths(
    way: Way,
    other: Way,
    given: &[u8],
    between: &mut [u8],
    out: &mut [u8],
) -> Result<(u64, u64), Refusal> {
    let there = fill_marked(way, given, between)?;
    let n = least(there, between.len());
    let back = fill_marked(other, &between[..n], out)?;
    Ok((there, back))
}

// The length of a call with all of `out` for its output, which holds nothing of an earlier call.
fn fill_marked(way: Way, given: &[u8], out: &mut [u8]) -> Result<u64, Refusal> {
    mark(out, 0);
    way.fill(given, out).map(|filled| filled.length)
}

fn compared(rt: &impl Print, a: &[u8], b: &[u8]) -> io::Result<()> {
    if a == b {
        return println!(rt; " same");
    }
    let n = a.iter().zip(b).take_while(|(x, y)| x == y).count();
    println!(rt; " differs at {n}")
}
