// A sheet that arrives in pieces comes to what one run over the whole comes to: document 02, K11. Nothing here runs.
//
// specs/Cutting.antt has a feed as a caller holds it from call to call, how it ends, and of which sheets the theorem is said.
//
// proofs/Whole.antt has the theorem and that any two cuttings end alike, proofs/Calls.antt what each call keeps and repeats, proofs/Kept.antt what the words of a
// feed leave as it was, proofs/Run.antt that the feed of a sheet's words is the run of its lines. proofs/Examples.antt has computed feeds.
#![tactic(auto)]
