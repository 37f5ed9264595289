// A call that fills an output, and the line that tells what it did.
use crate::output;
use flow::Refusal;
use list::Filled;
use std::io;
use vector_memory::{least, mark, marks_end};

// A list is written to a flow, or a flow is read back to its list. An enum and no closure: whoever handed a
// closure on would have to require that it may be called with any slices.
#[derive(Clone, Copy)]
pub(crate) enum Way {
    Written,
    ReadBack,
}

impl Way {
    pub(crate) fn fill(self, given: &[u8], out: &mut [u8]) -> Result<Filled, Refusal> {
        match self {
            Way::Written => list::write(given, out),
            Way::ReadBack => list::read_back(given, out),
        }
    }
}

// Calls with an output of that room, or of all of `out` where it is shorter.
pub(crate) fn print(
    rt: &impl Print,
    way: Way,
    given: &[u8],
    room: u64,
    out: &mut [u8],
) -> io::Result<()> {
    let n = least(room, out.len());
    let end = marks_end(n, out.len());
    mark(&mut out[..end], 0);
    let filled = way.fill(given, &mut out[..n]);
    output::print(rt, filled, &out[..end], n)
}
