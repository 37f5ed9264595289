// Two tests on bytes that the layers above ask: is a field all blank, and are two fields equal.
ghost use Rattle.std.specs.Prelude.{◌≡◌};
ghost use Rattle.fields.specs.Bytes.{is_blank, is_equal};

// Whether every byte is a blank. Of no byte at all that is true.
pub fn all_blank(field: &[u8]) -> bool
    ensures { result ≡ is_blank field.now }
{
    field.iter().all(|b| *b == b' ')
}

// Whether a and b have the same length and the same bytes. A field has few of them, and one by one they
// are compared in less than a third of the time of `a == b`. `EntryPoints` has a law on it.
pub fn equal(a: &[u8], b: &[u8]) -> bool
    ensures { result ≡ is_equal a.now b.now }
{
    a.len() == b.len() && a.iter().zip(b).all(|(x, y)| *x == *y)
}
