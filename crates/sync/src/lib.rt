// Synchronization of registers and fences on a page, step by step: any number of steps is allowed, and the whole is what enough steps make.
// And the clean words that SRET, a line change and a trap store, and the blank page that set leaves.
#![tactic(auto)]

pub mod blank;
pub mod clean;
pub mod entries;
pub mod registers;
pub mod reports;
