// Which parts of the gate each call may touch. Definitions and theorems only: nothing here runs.
#![tactic(auto)]
