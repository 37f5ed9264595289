// Bytes as pairs of hexadecimal digits.
ghost use Rattle.std.specs.Prelude.{◌≤◌, length};

use vector_lines::hex_byte;

// Puts the bytes that text encodes at the start of out, as many as fit, and answers how many.
pub(crate) fn decode(text: &[u8], out: &mut [u8]) -> usize
    ensures { result ≤ length out.new }
{
    let (pairs, _) = text.as_chunks::<2>();
    for (place, [high, low]) in out.iter_mut().zip(pairs) {
        *place = hex_byte(*high, *low);
    }
    pairs.len().min(out.len())
}
