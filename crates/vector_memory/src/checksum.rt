// The checksum that stands for long runs of bytes.
ghost use Rattle.std.specs.Prelude.{◌≡◌};
ghost use Rattle.vector_memory.specs.Checksum.{adler32};

// The largest prime below 2^16.
const MODULUS: u64 = 65521;

// Adler-32: a sum of the bytes and a sum of these sums, so that the order counts too.
#[tactic(auto, using(crate::proofs::Sums::adler_next, crate::proofs::Sums::adler_past))]
pub fn adler(bytes: &[u8]) -> u64
    ensures { result ≡ adler32 bytes.now }
{
    let mut low: u64 = 1;
    let mut high: u64 = 0;
    for b in bytes {
        low = (low + u64::from(*b)) % MODULUS;
        high = (high + low) % MODULUS;
    }
    high * 65536 + low
}
