// Turns and steps of a synchronization: definitions and their laws. There is no code here.
#![tactic(auto)]
