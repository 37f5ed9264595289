// What the programs read their input with.
//
// No public function has a `requires`.
#![tactic(auto)]

ghost use Rattle.std.specs.Prelude.{◌≡◌, ◌≤◌, ◌<◌, ℕ, length, take, slice_get, EachIndex, IfSome};
ghost use Rattle.std.specs.Io.KnownBytes.{Consumes};

use std::io::Read;

// Reads until `buf` is full, the input ends or a read fails, and answers how many bytes it put at the
// start of `buf`: the next ones of the input, in order, and it takes no others from it.
pub fn read_full<R: Read>(from: &mut R, buf: &mut [u8]) -> usize
    ensures bound { result ≤ length buf.new }
    ensures bytes { Consumes (R.remaining from.old) (R.remaining from.new) (take result buf.new) }
{
    // A read may give fewer bytes than there is room for, so that no number of turns is known beforehand.
    let mut done = 0;
    while done < buf.len() {
        match from.read(&mut buf[done..]) {
            Ok(0) => return done,
            Ok(n) => done += n,
            Err(_) => return done,
        }
    }
    done
}

// N zeros, for a buffer of bytes or of wider numbers. Its length is told apart from its elements, so
// that a long one can be lent.
pub fn buffer<T: From<u8> + Copy, const N: usize>() -> [T; N]
    ensures size { length result ≡ N }
    ensures zeros { EachIndex result (λ k. IfSome (slice_get result k) (λ x. T.from_gives 0 x)) }
{
    let zero = T::from(0);
    [zero; N]
}
