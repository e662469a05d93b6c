// Fence entries at either register width, and the translation table: decoding, what an entry names, and removal.
#![tactic(auto)]

mod bits;
pub mod entry;
mod names;
pub mod table;
