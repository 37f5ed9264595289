// What the programs print that std does not: bytes that need not be text.
//
// No public function has a `requires`. A write that fails ends the call with its error, and what is
// written is tested, not proved.
#![tactic(auto)]

use std::{fmt, io, str};

// Bytes in quotes: each as it is, but those outside 32 to 126 and the backslash as a backslash and two
// lower-case hexadecimal digits.
#[derive(Clone, Copy)]
pub struct Quoted<'a>(pub &'a [u8]);

impl fmt::Display for Quoted<'_> {
    fn fmt<W: fmt::Write>(&self, f: &mut fmt::Formatter<W>) -> fmt::Result {
        f.write_char('"')?;
        for part in self.0.chunks(AT_ONCE) {
            if part.iter().fold(true, |all, b| all & is_plain(*b)) {
                write_plain(f, part)?;
            } else {
                write_escaped(f, part)?;
            }
        }
        f.write_char('"')
    }
}

// Most parts stand for themselves. Of so many bytes that is seen at once; byte by byte all of it takes three
// times as long.
const AT_ONCE: usize = 128;

// Whether a byte stands for itself.
fn is_plain(b: u8) -> bool {
    (b' ' <= b) & (b <= b'~') & (b != b'\\')
}

// Bytes that all stand for themselves, and so are text.
fn write_plain<W: fmt::Write>(f: &mut fmt::Formatter<W>, bytes: &[u8]) -> fmt::Result {
    match str::from_utf8(bytes) {
        Ok(text) => f.write_str(text),
        Err(_) => Err(fmt::Error),
    }
}

// Bytes of which some do not: each run of others up to one that does not, and then that one.
fn write_escaped<W: fmt::Write>(f: &mut fmt::Formatter<W>, bytes: &[u8]) -> fmt::Result {
    for part in bytes.split_inclusive(|b| !is_plain(*b)) {
        match part.split_last() {
            Some((b'\\', run)) => {
                write_plain(f, run)?;
                f.write_str("\\5c")?;
            }
            Some((last, run)) if !is_plain(*last) => {
                write_plain(f, run)?;
                write!(f, "\\{last:02x}")?;
            }
            _ => write_plain(f, part)?,
        }
    }
    Ok(())
}

// Writes the bytes as they are, and a line feed. No Display: they need not be text.
pub fn line(rt: &impl Print, bytes: &[u8]) -> io::Result<()> {
    rt.write_all(bytes)?;
    println!(rt)
}
