// Lists, for the crates above: what a part of a list is and what writing a part back leaves, what holds
// of every element, and lists cut before some of their elements and joined again (specs/); the laws of
// all of these (proofs/). No code.
#![tactic(auto)]
