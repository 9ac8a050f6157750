// The one definition of the gate, `step`, with no code of its own: specs/Gate.antt states it, specs/Cases.antt has the cases P1 to P13.
#![tactic(auto)]
