// The lines of a text.
ghost use Rattle.std.specs.Prelude.{◌≡◌, ◌==◌, position};
ghost use Rattle.std.specs.Iterator.{YieldsFirstRef, item_count};
ghost use Rattle.vector_lines.specs.Texts.{line_list};

// The lines that are left, each without its line feed.
#[derive(Drop)]
pub struct Lines<'a> {
    pub rest: &'a [u8],
}

impl<'a> Lines<'a> {
    // The lines of text. Where nothing follows the last line feed, no line does.
    pub fn of(text: &'a [u8]) -> Lines<'a>
        ensures { line_list result.rest.now ≡ line_list text.now }
    {
        Lines { rest: text }
    }
}

impl<'a> Iterator for Lines<'a> {
    type Item = &'a [u8];

    ghost next_gives = { YieldsFirstRef (λ s. line_list s.rest.now) };

    ghost remaining = { item_count (λ s. line_list s.rest.now) };

    #[tactic(auto, using(crate::proofs::LineCuts::line_at, crate::proofs::LineCuts::lines_fewer, crate::proofs::LineCuts::line_only, crate::proofs::LineCuts::line_none))]
    fn next(&mut self) -> Option<&'a [u8]> {
        let rest = self.rest;
        match first(rest, b'\n') {
            Some(end) => {
                self.rest = &rest[end + 1..];
                Some(&rest[..end])
            }
            None if rest.is_empty() => None,
            None => {
                self.rest = &[];
                Some(rest)
            }
        }
    }
}

// The index of the first byte that is the one given.
pub(crate) fn first(text: &[u8], byte: u8) -> Option<usize>
    ensures { result ≡ position (λ b. b == byte) text.now }
{
    text.iter().position(|b| *b == byte)
}
