// The line that each line of the vectors is answered by.
use crate::work::Work;
use crate::{account, asked};
use reading::buffer;
use std::io;
use vector_lines::{Held, two_decimals};

// Two flows, of which the first is the old one and, where they are exchanged, the new one; the working memory
// and the account. The account has room for 2,000 lines and the marks after them.
#[derive(Drop)]
pub(crate) struct Evenings {
    first: Held<262144>,
    second: Held<262144>,
    exchanged: bool,
    work: Work,
    account: [u8; 2064],
}

impl Evenings {
    pub(crate) fn new() -> Evenings {
        Evenings {
            first: Held::new(),
            second: Held::new(),
            exchanged: false,
            work: Work::new(),
            account: buffer(),
        }
    }

    // `#` and a name, `(` or `)` and a flow, `~` for the flows to be exchanged, `=` or `?` and a call, or
    // none of these.
    pub(crate) fn answer(&mut self, rt: &impl Print, line: &[u8]) -> io::Result<()> {
        match line {
            [b'#', ..] => printing::line(rt, line),
            [b'(', text @ ..] => {
                let old = if self.exchanged {
                    &mut self.second
                } else {
                    &mut self.first
                };
                old.take_over(text);
                println!(rt; "old {}", old.bytes().len())
            }
            [b')', text @ ..] => {
                let new = if self.exchanged {
                    &mut self.first
                } else {
                    &mut self.second
                };
                new.take_over(text);
                println!(rt; "new {}", new.bytes().len())
            }
            [b'~', ..] => {
                self.exchanged = !self.exchanged;
                let (old, new) = in_turn(&self.first, &self.second, self.exchanged);
                println!(rt; "old {} new {}", old.len(), new.len())
            }
            [b'=', text @ ..] => self.compare(rt, text),
            [b'?', text @ ..] => self.ask(rt, text),
            _ => println!(rt; "unknown"),
        }
    }

    // `66049 2` compares with a working memory of 66049 numbers and room for 2 lines.
    fn compare(&mut self, rt: &impl Print, text: &[u8]) -> io::Result<()> {
        let (lent, room) = two_decimals(text);
        self.work.lend(lent);
        let (old, new) = in_turn(&self.first, &self.second, self.exchanged);
        account::print(rt, old, new, &mut self.work, &mut self.account, room)
    }

    // `66049 1` asks for line 1 with a working memory of 66049 numbers.
    fn ask(&mut self, rt: &impl Print, text: &[u8]) -> io::Result<()> {
        let (lent, n) = two_decimals(text);
        self.work.lend(lent);
        let (old, new) = in_turn(&self.first, &self.second, self.exchanged);
        asked::print(rt, old, new, &mut self.work, n)
    }
}

// The old flow and the new one. No swap of the two: that would move 262,144 bytes each way.
fn in_turn<'a>(
    first: &'a Held<262144>,
    second: &'a Held<262144>,
    exchanged: bool,
) -> (&'a [u8], &'a [u8]) {
    if exchanged {
        (second.bytes(), first.bytes())
    } else {
        (first.bytes(), second.bytes())
    }
}
