// What reading a flow means, said without the reader: the order of records as a grammar (specs/Shape),
// the rules of a record as statements (Rules), a whole flow (Grammar), its first fault (Fault), and what
// is proved of the reader and of where dispositions stand (Laws). Proofs in proofs/; no code.
#![tactic(auto)]
