// The three demands of document 00 as statements about the library, with their proofs, and no code.
// `specs/` has the statements, to be read without a proof: the ledger that the amendments are held
// against, what a list of calls does to memory, the demands, document 01's ten examples, and for each
// wrong program that document 01 names the statement that it breaks. `proofs/` has the proofs.
#![tactic(auto)]
