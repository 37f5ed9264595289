// What the programs that run vectors tell of memory: marks that stand in it before a call, which of
// them are found changed after it, and a checksum that stands for long runs of bytes.
//
// No public function has a `requires`. Each says its answer and every element that it changes, but
// `print_found` and `print_kept`, whose writing is tested and not proved, and which answer with the
// error of a write that fails.
#![tactic(auto)]

mod checksum;
mod marks;

ghost use Rattle.std.specs.Prelude.{◌≤◌, min, ◌≡◌};

pub use checksum::adler;
pub use marks::{Markable, changed, mark, marks_end, print_found, print_kept};

// The smaller one of a length that a call has told and a length that there is. They differ in width, and
// `min` takes two of the same.
pub fn least(a: u64, b: usize) -> usize
    ensures value { result ≡ min a b }
    ensures upper_bound { (result ≤ a) × (result ≤ b) }
{
    a.min(b as u64) as usize
}
