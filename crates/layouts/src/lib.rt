// Two layouts of the lists give the same: theorems over the definition of the gate, with no code of their own. specs/Layouts.antt states them.
#![tactic(auto)]
