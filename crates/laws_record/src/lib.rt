// Theorems over the record's definitions: nothing here runs.
//
// proofs/Round.antt: what is written reads back as written, for all that a record can hold (proofs/Keepable.antt). proofs/ReadKeepable.antt: what is
// read is such. proofs/Kept.antt: a record that is read is written as the same bytes. That the stores come to the record is
// record_write/proofs/Joined.antt.
#![tactic(auto)]
