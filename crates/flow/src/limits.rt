// The most bytes of a flow, and where the walk's counts stop: one above what the trailer's digits hold.
use records::{MOST_CENTS, MOST_RECORDS};

pub(crate) const MOST_BYTES: usize = 120 * (MOST_RECORDS as usize);

pub(crate) const COUNT_LIMIT: u64 = MOST_RECORDS + 1;

pub(crate) const CENTS_LIMIT: u64 = MOST_CENTS + 1;
