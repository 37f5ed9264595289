// The line that each kind of case is answered by.
use fields::Day;
use refusals::Reason;
use std::io;

pub(crate) fn number(rt: &impl Print, answer: Result<u64, Reason>) -> io::Result<()> {
    match answer {
        Ok(value) => println!(rt; "value {value}"),
        Err(reason) => refused(rt, reason),
    }
}

pub(crate) fn date(rt: &impl Print, answer: Result<Day, Reason>) -> io::Result<()> {
    match answer {
        Ok(Day { day, month, year }) => println!(rt; "day {day} month {month} year {year}"),
        Err(reason) => refused(rt, reason),
    }
}

fn refused(rt: &impl Print, reason: Reason) -> io::Result<()> {
    println!(rt; "refused {}", reason.number())
}

pub(crate) fn flag(rt: &impl Print, answer: bool) -> io::Result<()> {
    println!(rt; "{}", if answer { "yes" } else { "no" })
}

// The digit writer: a length of at most 32, then the number.
pub(crate) fn written(rt: &impl Print, bytes: &[u8]) -> io::Result<()> {
    let Some((size, number)) = bytes.split_first() else {
        return Ok(());
    };
    let n = usize::from(*size);
    if 32 < n {
        return Ok(());
    }
    let mut space = [b'?'; 32];
    let out = &mut space[..n];
    fields::write_digits(out, big_endian(number));
    printing::line(rt, out)
}

// Two slices: how many bytes the first has, then both.
pub(crate) fn compared(rt: &impl Print, bytes: &[u8]) -> io::Result<()> {
    let Some((size, both)) = bytes.split_first() else {
        return Ok(());
    };
    match both.split_at_checked(usize::from(*size)) {
        Some((a, b)) => flag(rt, fields::equal(a, b)),
        None => Ok(()),
    }
}

// How the date rule answers all strings of six digits.
pub(crate) fn six_digits(rt: &impl Print) -> io::Result<()> {
    let dates = count(None);
    let no_days = count(Some(Reason::NoSuchDay));
    let no_digits = count(Some(Reason::NotDigits));
    println!(rt; "six digits: dates {dates} refused-8 {no_days} refused-5 {no_digits}")
}

// How many of the strings of six digits the date rule refuses for that reason, or accepts.
fn count(reason: Option<Reason>) -> usize {
    (0..1_000_000).filter(|n| refusal(*n) == reason).count()
}

// Why the date rule refuses the six digits of n.
fn refusal(n: u64) -> Option<Reason> {
    let mut text = [0; 6];
    fields::write_digits(&mut text, n);
    fields::read_date(&text).err()
}

// The number that the bytes give, the highest first; of more than eight, the last eight.
fn big_endian(bytes: &[u8]) -> u64 {
    bytes.iter().fold(0, |value: u64, b| {
        value.wrapping_mul(256).wrapping_add(u64::from(*b))
    })
}
