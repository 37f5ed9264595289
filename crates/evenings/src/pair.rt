// Two flows that can be compared.
ghost use Rattle.std.specs.Prelude.{◌≡◌};
ghost use Rattle.flow.specs.Verdict.{verdict};
ghost use Rattle.evenings.specs.Pair.{judge_fit, judge_pair};

use crate::limits::{LEAST_MEMORY, MOST_REQUESTS};
use flow::{Refusal, Totals, refused_call};
use records::FlowKind;
use refusals::Reason;

// The kind of both flows, and how many requests each has.
#[derive(Clone, Copy, Debug, PartialEq, Eq)]
pub(crate) struct Sides {
    pub kind: FlowKind,
    pub old: u64,
    pub new: u64,
}

// Two flows that fit, and what they have. That they do stands in the contracts and not here: a ghost field is a
// proposition, and what `Comparable` holds of a flow has its totals in it.
#[derive(Clone, Copy)]
pub(crate) struct Pair<'a> {
    pub old: &'a [u8],
    pub new: &'a [u8],
    pub sides: Sides,
}

// Refused, in this order: what the reader refuses of the old flow, then of the new one; 27, one has too many
// requests; 28, they are of different kinds; 34, too little working memory is lent.
pub(crate) fn judge_pair(old: &[u8], new: &[u8], lent: usize) -> Result<Sides, Refusal>
    ensures { verdict result ≡ judge_pair old.now new.now lent }
{
    let old_totals = flow::read(old)?;
    let new_totals = flow::read(new)?;
    fit(old_totals, new_totals, lent)
}

fn fit(old: Totals, new: Totals, lent: usize) -> Result<Sides, Refusal>
    ensures { verdict result ≡ judge_fit old new lent }
{
    if MOST_REQUESTS < old.dispositions || MOST_REQUESTS < new.dispositions {
        return Err(refused_call(Reason::TooManyRequests));
    }
    if old.kind != new.kind {
        return Err(refused_call(Reason::KindsDiffer));
    }
    if lent < LEAST_MEMORY {
        return Err(refused_call(Reason::WorkingMemory));
    }
    Ok(Sides {
        kind: old.kind,
        old: old.dispositions,
        new: new.dispositions,
    })
}
