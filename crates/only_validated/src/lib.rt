// A row of the price list: a theorem over the definition of the gate, with no code of its own. specs/Row.antt states it.
#![tactic(auto)]
