// Numbers of 64 bits, which answers are made of, and those that a slice is counted with: each as the
// other, and the same. Two functions and no trait, since `EntryPoints` has a law on each.
ghost use Rattle.std.specs.Prelude.{◌≡◌};

pub fn as_count(n: usize) -> u64
    ensures { result ≡ n }
{
    n as u64
}

pub fn as_index(n: u64) -> usize
    ensures { result ≡ n }
{
    n as usize
}
