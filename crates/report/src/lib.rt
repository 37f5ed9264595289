// The line that answers a flow or a list, for the programs.
//
// No public function has a `requires`. What is written is tested, not proved, and a write that fails ends
// the call with its error.
#![tactic(auto)]

use flow::{Refusal, Totals};
use records::FlowKind;
use std::{fmt, io};

// What is printed of an answer: `accepted dispositions 2 cents 83050 records 16 kind requests`, or of a
// refusal what `Refused` has.
#[derive(Clone, Copy)]
pub struct Told(pub Result<Totals, Refusal>);

impl fmt::Display for Told {
    fn fmt<W: fmt::Write>(&self, f: &mut fmt::Formatter<W>) -> fmt::Result {
        match self.0 {
            Ok(totals) => write!(
                f,
                "accepted dispositions {} cents {} records {} kind {}",
                totals.dispositions,
                totals.cents,
                totals.records,
                word(totals.kind)
            ),
            Err(refusal) => write!(f, "{}", Refused(refusal)),
        }
    }
}

fn word(kind: FlowKind) -> &'static str {
    match kind {
        FlowKind::Requests => "requests",
        FlowKind::Recalls => "recalls",
    }
}

// What is printed of a refusal: `refused 9 record 10 position 4`.
#[derive(Clone, Copy)]
pub struct Refused(pub Refusal);

impl fmt::Display for Refused {
    fn fmt<W: fmt::Write>(&self, f: &mut fmt::Formatter<W>) -> fmt::Result {
        let Refusal {
            reason,
            record,
            position,
        } = self.0;
        let number = reason.number();
        write!(f, "refused {number} record {record} position {position}")
    }
}

// Writes a blank and, in quotes, the first 10 bytes as they are, or all where there are fewer: a record's
// type and number.
pub fn print_start(rt: &impl Print, bytes: &[u8]) -> io::Result<()> {
    rt.write_all(b" \"")?;
    rt.write_all(bytes.get(..10).unwrap_or(bytes))?;
    rt.write_all(b"\"")
}
