// All entries' turns in one pass over the table (02, Req 09).
#![tactic(auto)]

mod bounds;
mod gather;
pub mod serve;
mod sweep;
