// Every gate that the calls make is in range: theorems over the definition of the gate, with no code of its own. specs/Stays.antt states them.
#![tactic(auto)]
