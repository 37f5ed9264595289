// The bytes that a record may have: 32 to 126.
ghost use Rattle.std.specs.Prelude.{◌≡◌, ◌&&◌, not, true, position};
ghost use Rattle.std.specs.List.{fold};
ghost use Rattle.records.specs.Bytes.{is_printable, bad_byte};

// The position of the record's first byte outside 32 to 126, or 0 where it has none. A right record is
// seen to be right by loops with no early exit, which the compiler turns into instructions on sixteen
// bytes at a time: over 96 bytes, six such steps, and over the 24 that are left. A number and no Option,
// since `EntryPoints` has a law on it.
pub fn bad_byte(rec: &[u8]) -> u64
    ensures { result ≡ bad_byte rec.now }
{
    if rec.len() < 96 {
        return first_bad(rec);
    }
    if all_printable(&rec[0..96]) & all_printable(&rec[96..]) {
        return 0;
    }
    first_bad(rec)
}

fn all_printable(part: &[u8]) -> bool
    ensures { result ≡ fold (λ right b. right && is_printable b) true part.now }
{
    part.iter().fold(true, |right, b| right & is_printable(*b))
}

// The plain path, taken only where there is a bad byte.
fn first_bad(rec: &[u8]) -> u64
    ensures { result ≡ bad_byte rec.now }
{
    match bad_index(rec) {
        Some(i) => i as u64 + 1,
        None => 0,
    }
}

fn bad_index(rec: &[u8]) -> Option<usize>
    ensures { result ≡ position (λ b. not (is_printable b)) rec.now }
{
    rec.iter().position(|b| !is_printable(*b))
}

const FIRST: u8 = 32;

const LAST: u8 = 126;

fn is_printable(b: u8) -> bool
    ensures { result ≡ is_printable b }
{
    FIRST <= b && b <= LAST
}
