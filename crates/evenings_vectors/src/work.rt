// The working memory: the marks that stand in it before a call, and what is found of it after one.
ghost use Rattle.std.specs.Prelude.{◌≤◌};

use evenings::{AccountLine, Compared};
use flow::Refusal;
use reading::buffer;
use std::io;
use vector_memory::{changed, least, mark, marks_end, print_found};

// The first `lent` numbers are lent to a call. There is room for 66,200 and the marks after them.
#[derive(Drop)]
pub(crate) struct Work {
    numbers: [u16; 66264],
    lent: usize,
    ghost lent_bound: { lent ≤ 66264 },
}

// What a call has left: the first index lent whose number is not zero, and the first of all and the first
// after those lent whose number is not as before.
#[derive(Clone, Copy)]
pub(crate) struct Left {
    zero: Option<usize>,
    before: Option<usize>,
    after: Option<usize>,
}

impl Work {
    pub(crate) fn new() -> Work {
        Work {
            numbers: buffer(),
            lent: 0,
        }
    }

    // Lends so many numbers, or all where there are fewer.
    pub(crate) fn lend(&mut self, count: u64) {
        self.lent = least(count, self.numbers.len());
    }

    // How many numbers are marked and looked at.
    fn marked(&self) -> usize
        ensures { (self.now.lent ≤ result) × (result ≤ 66264) }
    {
        marks_end(self.lent, self.numbers.len())
    }

    fn mark(&mut self) {
        let end = self.marked();
        let (marked, _) = self.numbers.split_at_mut(end);
        mark(marked, 0);
    }

    // The account, with a working memory that is marked before.
    pub(crate) fn compare(
        &mut self,
        old: &[u8],
        new: &[u8],
        account: &mut [u8],
    ) -> Result<Compared, Refusal> {
        self.mark();
        let (work, _) = self.numbers.split_at_mut(self.lent);
        evenings::compare(old, new, work, account)
    }

    // The part that line n of the account speaks of, likewise.
    pub(crate) fn line<'a>(&mut self, old: &'a [u8], new: &'a [u8], n: u64) -> &'a [u8] {
        self.mark();
        let (work, _) = self.numbers.split_at_mut(self.lent);
        evenings::line(old, new, work, n)
    }

    // What line n tells, likewise.
    pub(crate) fn find_line(
        &mut self,
        old: &[u8],
        new: &[u8],
        n: u64,
    ) -> Result<AccountLine, Refusal> {
        self.mark();
        let (work, _) = self.numbers.split_at_mut(self.lent);
        evenings::find_line(old, new, work, n)
    }

    pub(crate) fn seen(&self) -> Left {
        let marked = &self.numbers[..self.marked()];
        Left {
            zero: self.numbers[..self.lent].iter().position(|n| *n != 0),
            before: changed(marked, 0),
            after: changed(marked, self.lent),
        }
    }

    // After an accepted call, as ` zero 66049 as before 64`, or ` not zero at 3 changed at 66050`.
    pub(crate) fn print_zero(&self, rt: &impl Print, left: Left) -> io::Result<()> {
        print_found(rt, left.zero, self.lent, "zero", "not zero")?;
        let count = self.marked() - self.lent;
        print_found(rt, left.after, count, "as before", "changed")
    }

    // After a refused call, as ` as before 66113`, or ` changed at 3`.
    pub(crate) fn print_before(&self, rt: &impl Print, left: Left) -> io::Result<()> {
        print_found(rt, left.before, self.marked(), "as before", "changed")
    }
}

impl Left {
    // What two calls have left: the first index of both.
    pub(crate) fn both(self, other: Left) -> Left {
        Left {
            zero: first(self.zero, other.zero),
            before: first(self.before, other.before),
            after: first(self.after, other.after),
        }
    }
}

fn first(a: Option<usize>, b: Option<usize>) -> Option<usize> {
    match (a, b) {
        (Some(m), Some(n)) => Some(m.min(n)),
        _ => a.or(b),
    }
}
