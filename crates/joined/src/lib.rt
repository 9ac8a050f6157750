// A save while phones change (W-209): theorems over the definition of the gate, with no code of its own. specs/Joined.antt states them.
#![tactic(auto)]
