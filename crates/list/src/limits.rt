// The most items of a list: one record of its flow is EF.
use records::MOST_RECORDS;

pub(crate) const MOST_ITEMS: usize = (MOST_RECORDS as usize) - 1;
