// The memory that the calls write to, and the lines that tell what is left in it.
ghost use Rattle.std.specs.Prelude.{◌≤◌, ◌≡◌};

use printing::Quoted;
use reading::buffer;
use report::Told;
use std::io;
use vector_lines::{decimal, two_decimals, unescape};
use vector_memory::{adler, least, mark, marks_end, print_found, print_kept};

// The latest first flow was the first `first` bytes of the space, the flow that is left is the first
// `left` of these. The space has room for a flow of 131,072 bytes and the marks after it, and `list` for
// the list of a flow.
#[derive(Drop)]
pub(crate) struct Memory {
    space: [u8; 131136],
    first: usize,
    left: usize,
    list: [u8; 131072],
    ghost left_bound: { left ≤ first },
    ghost first_bound: { first ≤ 131136 },
}

impl Memory {
    pub(crate) fn new() -> Memory {
        Memory {
            space: buffer(),
            first: 0,
            left: 0,
            list: buffer(),
        }
    }

    // Begins with the flow that text encodes, and marks after it. A flow for which there is no room is cut.
    pub(crate) fn begin(&mut self, text: &[u8]) {
        let n = unescape(text, &mut self.space);
        let end = marks_end(n, self.space.len());
        let (marked, _) = self.space.split_at_mut(end);
        mark(marked, n);
        self.first = n;
        self.left = n;
    }

    // `2 40000` stands for the number 2 and the amount 40000.
    pub(crate) fn change(&mut self, rt: &impl Print, text: &[u8]) -> io::Result<()>
        ensures { self.new.left ≡ self.old.left }
    {
        let (k, cents) = two_decimals(text);
        let (flow, _) = self.space.split_at_mut(self.left);
        let answer = amend::change(flow, k, cents);
        print!(rt; "{} ", Told(answer))
    }

    // Writes the length of the flow left too, which where it is refused is that of the flow. A length
    // above the flow's counts as the flow's.
    pub(crate) fn withdraw(&mut self, rt: &impl Print, text: &[u8]) -> io::Result<()>
        ensures { self.new.left ≤ self.old.left }
    {
        let (flow, _) = self.space.split_at_mut(self.left);
        let answer = amend::withdraw(flow, decimal(text));
        let length = answer.map_or(self.left as u64, |withdrawn| withdrawn.length);
        self.left = least(length, self.left);
        let told = Told(answer.map(|withdrawn| withdrawn.totals));
        print!(rt; "{told} length {length} ")
    }

    // `reads accepted dispositions 1 cents 38050 records 9 list 643 adler 5 flow 1080 adler 7 blank 840
    // kept 64`: what the reader says of the flow that is left, its list and it itself by length and
    // checksum, the blanks after it where the first flow was, and the marks after that.
    pub(crate) fn tell(&mut self, rt: &impl Print) -> io::Result<()> {
        let flow = &self.space[..self.left];
        print!(rt; "reads {}", Told(flow::read(flow)))?;
        // A refused call has written no byte. A length above the output's counts as the output's.
        let length = list::read_back(flow, &mut self.list).map_or(0, |filled| filled.length);
        let n = least(length, self.list.len());
        print!(rt; " list {length} adler {}", adler(&self.list[..n]))?;
        print!(rt; " flow {} adler {}", flow.len(), adler(flow))?;
        let first = &self.space[..self.first];
        let other = (self.left..first.len()).find(|i| first[*i] != b' ');
        print_found(rt, other, self.first - self.left, "blank", "not blank")?;
        let end = marks_end(self.first, self.space.len());
        print_kept(rt, &self.space[..end], self.first)?;
        println!(rt)
    }

    // Writes record n of the memory, counted from 1.
    pub(crate) fn print_record(&self, rt: &impl Print, n: u64) -> io::Result<()> {
        let memory = &self.space[..self.first];
        let record = n
            .checked_sub(1)
            .and_then(|k| memory.chunks_exact(120).nth(k as usize));
        match record {
            Some(record) => println!(rt; "{}", Quoted(record)),
            None => println!(rt; "unknown"),
        }
    }
}
