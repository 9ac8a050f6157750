// Runs of which the row of the price list speaks, with no code of its own: proofs/Runs.antt.
#![tactic(auto)]
