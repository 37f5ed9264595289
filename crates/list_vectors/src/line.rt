// The line that each line of the vectors is answered by.
use crate::call::Way;
use crate::{call, round_trip};
use reading::buffer;
use std::io;
use vector_lines::{Held, decimal};

// The latest list or flow, and the outputs of the calls on it.
#[derive(Drop)]
pub(crate) struct Memory {
    held: Held<131072>,
    between: [u8; 131072],
    out: [u8; 131072],
}

impl Memory {
    pub(crate) fn new() -> Memory {
        Memory {
            held: Held::new(),
            between: buffer(),
            out: buffer(),
        }
    }

    // `#` and a name, `=` and bytes, `>` or `<` and a room, `><` or `<>`, or none of these.
    pub(crate) fn answer(&mut self, rt: &impl Print, line: &[u8]) -> io::Result<()> {
        match line {
            [b'#', ..] => printing::line(rt, line),
            [b'=', text @ ..] => {
                self.held.take_over(text);
                println!(rt; "bytes {}", self.held.bytes().len())
            }
            [b'>', text @ ..] => self.asked(rt, Way::Written, text),
            [b'<', text @ ..] => self.asked(rt, Way::ReadBack, text),
            _ => println!(rt; "unknown"),
        }
    }

    // After the way: the room that the output has, or the other way.
    fn asked(&mut self, rt: &impl Print, way: Way, text: &[u8]) -> io::Result<()> {
        let given = self.held.bytes();
        let between = &mut self.between;
        let out = &mut self.out;
        match text {
            [b'0'..=b'9', ..] => call::print(rt, way, given, decimal(text), out),
            [b'>', ..] => round_trip::print(rt, way, Way::Written, given, between, out),
            [b'<', ..] => round_trip::print(rt, way, Way::ReadBack, given, between, out),
            _ => println!(rt; "unknown"),
        }
    }
}
