// The most that the digits of a trailer hold.

// Dispositions, and records: seven digits.
pub const MOST_RECORDS: u64 = 9999999;

// Cents: fifteen digits.
pub const MOST_CENTS: u64 = 999999999999999;
