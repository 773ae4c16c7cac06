// Theorems over the contracts of what users call: nothing here runs.
//
// proofs/Outcome.antt: any pair of outcomes that a contract allows for one input is equal, part by part, call by call.
#![tactic(auto)]
