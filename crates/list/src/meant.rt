// What the record of an item takes from the items up to it.
ghost use Rattle.std.specs.Prelude.{◌+◌, ◌<◌, cond, ◌≡◌};
ghost use Rattle.fields.specs.Digits.{digits};
ghost use Rattle.records.specs.Kinds.{heads, opened};
ghost use Rattle.records.specs.Limits.{count_limit};
ghost use Rattle.records.specs.declared.flow_kind.FlowKind.TheVariants.{Requests};
ghost use Rattle.list.specs.Encode.{kind_meant};
ghost use Rattle.list.specs.Table.{record_of};

use crate::item::Item;
use crate::table::ItemKind;
use records::FlowKind;

// The kind of flow of the latest H or Q, or requests; and the number of the latest D, with its seven
// digits, which are made anew only where a disposition opens. The body of the H or Q goes beside it: a
// part of the list within it would hide the rest from the proofs of the loops.
#[derive(Clone, Copy, Debug, PartialEq, Eq)]
pub(crate) struct Meant {
    pub flow: FlowKind,
    pub dispositions: u64,
    pub number: [u8; 7],
    pub ghost numbered: { number ≡ digits 7 dispositions },
}

impl Meant {
    // Before the first item.
    pub(crate) fn start() -> Meant
        ensures flow { result.flow ≡ Requests }
        ensures dispositions { result.dispositions ≡ 0 }
    {
        Meant {
            flow: FlowKind::Requests,
            dispositions: 0,
            number: records::seven_digits(0),
        }
    }

    // With an item of the kind counted.
    pub(crate) fn counting(mut self, kind: ItemKind) -> Meant
        requires { self.dispositions < count_limit }
        ensures flow { result.flow ≡ self.flow }
        ensures dispositions { result.dispositions ≡ self.dispositions + opened (record_of kind) }
    {
        if records::opens(kind.record()) {
            self.dispositions += 1;
            self.number = records::seven_digits(self.dispositions);
        }
        self
    }

    // What comes after an item of the kind: an H or a Q tells the kind of flow.
    pub(crate) fn after(mut self, kind: ItemKind) -> Meant
        ensures flow { result.flow ≡ kind_meant self.flow kind }
        ensures dispositions { result.dispositions ≡ self.dispositions }
    {
        if let ItemKind::H(flow) = kind {
            self.flow = flow;
        }
        self
    }
}

// The body of the latest H or Q, after an item.
pub(crate) fn header_after<'a>(header: &'a [u8], it: Item<'a>) -> &'a [u8]
    ensures { result.now ≡ cond (heads (record_of it.entry.kind)) it.entry.body.now header.now }
{
    if records::heads(it.kind.record()) {
        return it.body;
    }
    header
}
