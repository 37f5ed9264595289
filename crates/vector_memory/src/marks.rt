// Marks, which stand in memory before a call, and what is found of them after it.
ghost use Rattle.std.specs.Prelude.{◌≡◌, ◌<◌, ◌≤◌, ◌+◌, ℕ, min, length, drop, IfSome};
ghost use Rattle.vector_memory.specs.Marks.{byte_marker, number_marker, marked, changed_from};

use std::io;

// What memory consists of: bytes, or numbers of 16 bits.
pub trait Markable: Copy + PartialEq {
    ghost marker: { ℕ → Self };

    // What marks an index.
    fn marker(i: usize) -> Self
        ensures { result ≡ marker i };
}

// The mark is no byte of an accepted flow or of its list, and where it was moved, by a record or by any
// number of places but a multiple of 101, that shows.
impl Markable for u8 {
    ghost marker = { byte_marker };

    fn marker(i: usize) -> u8 {
        128 + (i % 101) as u8
    }
}

// The mark is no zero, which an accepted call leaves.
impl Markable for u16 {
    ghost marker = { number_marker };

    fn marker(i: usize) -> u16 {
        1 + (i % 60013) as u16
    }
}

// How many elements after those that a call may write are marked too, and looked at.
const AFTER: usize = 64;

// Where the marks after the first n elements end, of a memory of that length.
pub fn marks_end(n: usize, length: usize) -> usize
    ensures value { result ≡ min (n + 64) length }
    ensures upper_bound { result ≤ length }
    ensures lower_bound { n ≤ length → n ≤ result }
{
    n.saturating_add(AFTER).min(length)
}

// Marks each index from `at` on.
#[tactic(auto, using(crate::proofs::Marking::marked_next, crate::proofs::Marking::marked_past))]
pub fn mark<T: Markable>(out: &mut [T], at: usize)
    ensures { out.new ≡ marked T.marker at out.old }
{
    for i in at..out.len() {
        out[i] = T::marker(i);
    }
}

// The first index from `at` on where its mark does not stand.
#[tactic(auto, using(crate::proofs::Marking::changed_past))]
pub fn changed<T: Markable>(out: &[T], at: usize) -> Option<usize>
    ensures value { result ≡ changed_from T.eq T.marker at (drop at out.now) }
    ensures bound { IfSome result (λ i. (at ≤ i) × (i < length out.now)) }
{
    for i in at..out.len() {
        if out[i] != T::marker(i) {
            return Some(i);
        }
    }
    None
}

// Writes how many marks stand from `at` on, as ` kept 64`, or the first index where one does not, as
// ` changed at 1925`.
pub fn print_kept(rt: &impl Print, out: &[u8], at: usize) -> io::Result<()> {
    let count = out.len().saturating_sub(at);
    print_found(rt, changed(out, at), count, "kept", "changed")
}

// Writes how many places are as they should be, as ` blank 840`, or the first one that is not, as
// ` not blank at 1081`.
pub fn print_found(
    rt: &impl Print,
    first: Option<usize>,
    count: usize,
    good: &str,
    bad: &str,
) -> io::Result<()> {
    match first {
        Some(i) => print!(rt; " {bad} at {i}"),
        None => print!(rt; " {good} {count}"),
    }
}
