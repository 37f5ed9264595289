// What the rules answer of a record, and the counts that they need.
use crate::kind::RecordKind;
use refusals::Reason;

// A record that keeps its rules: its kind, and the cents that it asks for, which is the amount of a
// 14 and 0 of every other.
#[derive(Clone, Copy, Debug, PartialEq, Eq)]
pub struct Record {
    pub kind: RecordKind,
    pub cents: u64,
}

// The first fault of a record: the reason, and the field's first position.
#[derive(Clone, Copy, Debug, PartialEq, Eq)]
pub struct Fault {
    pub reason: Reason,
    pub position: u64,
}

// The dispositions up to and with a record, the cents of the amounts before it, and the records up
// to and with it.
#[derive(Clone, Copy, Debug, PartialEq, Eq)]
pub struct Counts {
    pub dispositions: u64,
    pub cents: u64,
    pub records: u64,
}
