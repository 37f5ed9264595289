// Bytes as text: each stands for itself, but a backslash and two lower-case hexadecimal digits for
// the byte with that value.
ghost use Rattle.std.specs.Prelude.{◌≤◌, ◌≡◌, [], ◌∷◌, length, MatchOption};
ghost use Rattle.sequences.specs.Part.{put};
ghost use Rattle.vector_lines.specs.Escapes.{fitting, unescaped};

use crate::hex_byte;

// Puts the bytes that text encodes at the start of out, as many as fit, and answers how many. What is
// no digit after a backslash counts as 0, and a backslash with fewer than two bytes after it stands
// for itself.
pub fn unescape(text: &[u8], out: &mut [u8]) -> usize
    ensures out_after { out.new ≡ put 0 (fitting (length out.old) text.now) out.old }
    ensures value { result ≡ length (fitting (length out.old) text.now) }
    ensures upper_bound { result ≤ length out.new }
{
    let mut rest = text;
    for n in 0..out.len() {
        let Some((byte, after)) = first(rest) else {
            return n;
        };
        out[n] = byte;
        rest = after;
    }
    out.len()
}

// The first byte that rest encodes, and what is left after it.
#[tactic(auto, using(crate::proofs::Escapes::none_left, crate::proofs::Escapes::escape_first, crate::proofs::Escapes::byte_first, crate::proofs::Escapes::byte_near_end))]
fn first(rest: &[u8]) -> Option<(u8, &[u8])>
    ensures { MatchOption result (unescaped rest.now ≡ []) (λ p. unescaped rest.now ≡ p.0 ∷ unescaped p.1.now) }
{
    let (byte, after) = rest.split_first()?;
    match after {
        [high, low, ..] if *byte == b'\\' => Some((hex_byte(*high, *low), &after[2..])),
        _ => Some((*byte, after)),
    }
}
