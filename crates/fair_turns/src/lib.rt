// Waiting frames per bus (W-204): theorems over the definition of the gate, with no code of its own. specs/Turns.antt and specs/Fair.antt state them.
#![tactic(auto)]
