// Theorems over the direct calls' definitions: nothing here runs.
//
// proofs/Said.antt: what each direct call says, for every input: the number, place, lines and detail of the first of document 01's tests that fails.
#![tactic(auto)]
