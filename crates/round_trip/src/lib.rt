// The saved record's round trip over the calls: theorems over the definition of the gate, with no code of its own. specs/Trip.antt states them.
#![tactic(auto)]
