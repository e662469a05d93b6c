// The hypervisor's half of the page (02, Req 01): it writes a register's word and marks it, queues a fence, and fills the SRET context. It works on
// a page of bytes at a width, and knows no hart, no memory and no features.
#![tactic(auto)]

pub mod answer;
pub mod context;
pub mod fences;
pub mod registers;
