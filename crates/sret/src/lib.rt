// SRET, over a record, the shared page and the translation table.
#![tactic(auto)]

pub mod resume;
pub mod swap;
