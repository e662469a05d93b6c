// FID 2 and 3 in their whole and their stoppable form, and demand 3.
#![tactic(auto)]

pub mod runs;
mod steps;
