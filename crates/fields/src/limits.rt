// The most that a field holds.

// The bytes of a digit field: the total of a trailer has the most.
pub(crate) const MOST_DIGITS: usize = 15;

// The cents of an amount: thirteen digits.
pub(crate) const MOST_AMOUNT: u64 = 9999999999999;
