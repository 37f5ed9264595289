// The bytes that a line of the vectors has given.
ghost use Rattle.std.specs.Prelude.{◌≤◌, ◌≡◌, take, []};
ghost use Rattle.vector_lines.specs.Escapes.{fitting};

use crate::unescape;

// The bytes held, which are the first `size` of a space for N.
#[derive(Drop)]
pub struct Held<const N: usize> {
    pub space: [u8; N],
    pub size: usize,
    ghost within: { size ≤ N },
}

impl<const N: usize> Held<N> {
    pub fn new() -> Held<N>
        ensures { take result.size result.space ≡ [] }
    {
        Held {
            space: reading::buffer(),
            size: 0,
        }
    }

    // Holds the bytes that text encodes in place of those before, as many as there is space for.
    pub fn take_over(&mut self, text: &[u8])
        ensures { take self.new.size self.new.space ≡ fitting N text.now }
    {
        self.size = unescape(text, &mut self.space);
    }

    pub fn bytes(&self) -> &[u8]
        ensures { result.now ≡ take self.now.size self.now.space }
    {
        &self.space[..self.size]
    }
}
