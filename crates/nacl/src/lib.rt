// The five calls of the SBI nested acceleration extension, a line change and the trap back, over a record, L1 memory and the translation table.
#![tactic(auto)]

pub mod calls;
pub mod lines;
pub mod traps;
