// Demand 3 of the scope: a theorem over the definition of the gate, with no code of its own. specs/Demand.antt states it.
#![tactic(auto)]
