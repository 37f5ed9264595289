// The account between two flows, and the line that tells it.
use crate::work::Work;
use evenings::Compared;
use flow::Refusal;
use printing::Quoted;
use report::Refused;
use std::io;
use vector_memory::{least, mark, marks_end, print_kept};

// Compares with that room for the account, or with all of `out` where it is shorter.
pub(crate) fn print(
    rt: &impl Print,
    old: &[u8],
    new: &[u8],
    work: &mut Work,
    out: &mut [u8],
    room: u64,
) -> io::Result<()> {
    let n = least(room, out.len());
    let end = marks_end(n, out.len());
    mark(&mut out[..end], 0);
    let answer = work.compare(old, new, &mut out[..n]);
    print_answer(rt, answer, &out[..end], work)
}

// `accepted kept 1 dropped 1 added 0 length 2 kept 64 "DK" zero 66049 as before 64`: the answer, the length,
// whether the bytes after it are as before, the bytes written, and the working memory; or `refused 27 record
// 0 position 0 length 0 kept 66 as before 66113`. A length above that of `out` counts as that.
fn print_answer(
    rt: &impl Print,
    answer: Result<Compared, Refusal>,
    out: &[u8],
    work: &Work,
) -> io::Result<()> {
    match answer {
        Ok(Compared { lines, length }) => {
            let n = least(length, out.len());
            let kept = lines.kept;
            let dropped = lines.dropped;
            let added = lines.added;
            print!(rt; "accepted kept {kept} dropped {dropped} added {added} length {length}")?;
            print_kept(rt, out, n)?;
            print!(rt; " {}", Quoted(&out[..n]))?;
            work.print_zero(rt, work.seen())?;
        }
        Err(refusal) => {
            print!(rt; "{} length 0", Refused(refusal))?;
            print_kept(rt, out, 0)?;
            work.print_before(rt, work.seen())?;
        }
    }
    println!(rt)
}
