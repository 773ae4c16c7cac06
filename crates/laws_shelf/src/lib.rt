// Theorems over the shelf's definitions: nothing here runs.
//
// proofs/Shelved.antt: a record that is read is written whole after its replay, with as many bytes, wherever there is room for it: nothing is lost.
// proofs/Reread.antt: what is then written reads back as what the replay left, and is written again as the same bytes. proofs/Sample.antt: document
// 01's whole run is such a record, and its replay leaves another one.
#![tactic(auto)]
