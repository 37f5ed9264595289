// Lines, escaped bytes, hexadecimal digits and decimal numbers of the vector files, for the programs
// that run them.
//
// No public function has a `requires`. `unescape` says each byte that it changes, and `Held` which bytes
// it holds.
#![tactic(auto)]

mod escape;
mod held;
mod lines;

ghost use Rattle.std.specs.Prelude.{◌+◌, ◌*◌, ◌≤◌, ◌≡◌, length, take, drop};
ghost use Rattle.vector_lines.specs.Texts.{hex_digit};
ghost use Rattle.vector_lines.specs.Numbers.{with_digit, decimal_digit, decimal_number, first_blank};

pub use escape::unescape;
pub use held::Held;
pub use lines::Lines;
use lines::first;

// The byte that two hexadecimal digits in lower case stand for; 0 counts for what is no digit.
pub fn hex_byte(high: u8, low: u8) -> u8
    ensures { result ≡ 16 * hex_digit high + hex_digit low }
{
    16 * hex_digit(high) + hex_digit(low)
}

// What a hexadecimal digit in lower case stands for; 0 where b is none. That of std takes upper case too.
pub fn hex_digit(b: u8) -> u8
    ensures value { result ≡ hex_digit b }
    ensures upper_bound { result ≤ 15 }
{
    match b {
        b'0'..=b'9' => b - b'0',
        b'a'..=b'f' => b - b'a' + 10,
        _ => 0,
    }
}

// The number that the decimal digits of text say. A byte that is no digit counts as 0, and what is
// above 64 bits stops at the largest number that they hold.
pub fn decimal(text: &[u8]) -> u64
    ensures { result ≡ decimal_number text.now }
{
    text.iter().fold(0, |n, b| with_digit(n, *b))
}

// The numbers before and after the first blank of text, which counts as a digit 0 of the second; that is
// 0 where there is no blank.
pub fn two_decimals(text: &[u8]) -> (u64, u64)
    ensures first { result.0 ≡ decimal_number (take (first_blank text.now) text.now) }
    ensures second { result.1 ≡ decimal_number (drop (first_blank text.now) text.now) }
{
    let blank = first(text, b' ').unwrap_or(text.len());
    let (before, after) = text.split_at(blank);
    (decimal(before), decimal(after))
}

// n with the digit of b after it, or the largest number.
fn with_digit(n: u64, b: u8) -> u64
    ensures { result ≡ with_digit n b }
{
    n.saturating_mul(10).saturating_add(decimal_digit(b))
}

fn decimal_digit(b: u8) -> u64
    ensures { result ≡ decimal_digit b }
{
    match b {
        b'0'..=b'9' => u64::from(b - b'0'),
        _ => 0,
    }
}
