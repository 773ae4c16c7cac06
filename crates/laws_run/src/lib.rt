// Theorems over the definitions: nothing here runs.
//
// proofs/Numbers.antt has every proved number of document 01, proofs/Budget.antt the budget rule, proofs/Keeps.antt what a run leaves as it was.
// docs/PROMISES.md lists every promise with its name and file.
#![tactic(auto)]
