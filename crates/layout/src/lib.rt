// The shared page's geometry: where things stand, its little-endian words and its dirty bits, at either register width.
// The definitions and their laws are stated over the word size in bytes.
#![tactic(auto)]

pub mod dirty;
pub mod place;
pub mod word;
pub mod xlen;
