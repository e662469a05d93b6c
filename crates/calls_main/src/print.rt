// What the rows print.
use checks::answer::{Answer, Success};
use std::io;

// One line: the code, the value, resumed or not.
pub fn answer(rt: &impl Print, name: &str, answer: Answer) -> io::Result<()> {
    match answer {
        Ok(Success::Value(v)) => println!(rt; "{name}: 0 {v}"),
        Ok(Success::Resumed) => println!(rt; "{name}: 0 0 resumed"),
        Err(refusal) => println!(rt; "{name}: {} 0", refusal.code()),
    }
}
