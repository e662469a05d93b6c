// What a call is answered: the checks, one function each, and the first that fails decides.
#![tactic(auto)]

pub mod answer;
pub mod call;
pub mod fid;
pub mod judge;
