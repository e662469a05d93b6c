// Prints the listing of the page that a file holds.
//
//     lister_main [FILE]
//
// Without FILE, or with `-` for it, the page is read from standard input. An input that cannot be read is told on standard error, and so is a listing
// that cannot be written: the exit status is then 1. In every other case it is 0.
#![tactic(auto)]

ghost use Rattle.std.specs.Prelude.{length};
ghost use Rattle.lister_main.specs.Reading.{Within};

use std::env::FillError;
use std::fmt::Display;
use std::fs::File;
use std::io::Read;
use std::process::ExitCode;
use std::rt::{Env, Files};
use std::{io, str};

// Tells on standard error what failed and why, and answers the exit status for that. Where standard error fails too, nobody is left to be told.
fn fail<D: Display + Drop>(rt: &impl Eprint, what: &str, why: D) -> ExitCode {
    let _ = eprintln!(rt; "{what}: {why}");
    ExitCode::FAILURE
}

// Reads until the buffer is full or the input ends.
fn read_input<I: Read>(input: &mut I, buf: &mut [u8]) -> io::Result<usize>
    ensures { Within (length buf.new) result }
{
    let mut done = 0;
    // Kept: no index is counted: a read takes as much as it does, and what the library reads whole needs the heap.
    while done < buf.len() {
        let more = input.read(&mut buf[done..])?;
        if more == 0 {
            return Ok(done);
        }
        done += more;
    }
    Ok(done)
}

// Prints the listing of what an input gives. One byte more than the greater page is read, so that a longer input has another length.
fn print_listing<I: Read>(
    rt: &(impl Print + Eprint),
    input: &mut I,
    name: &str,
) -> Result<(), ExitCode> {
    let mut image = [0u8; 12289];
    let n = read_input(input, &mut image).map_err(|error| fail(rt, name, error))?;
    let mut out = [0u8; lister::MAX_LENGTH];
    let length = lister::list(&image[..n], &mut out);
    rt.write_all(&out[..length])
        .map_err(|error| fail(rt, "standard output", error))
}

// The name of the file to read: the first argument, or `-` where there is none.
fn file_name<'a>(rt: &(impl Env + Eprint), word: &'a mut [u8]) -> Result<&'a str, ExitCode> {
    match rt.arg(1, word) {
        Err(FillError::NotPresent) => Ok("-"),
        Err(FillError::TooLong) => Err(fail(rt, "file name", "File name too long")),
        Ok(n) => str::from_utf8(&word[..n]).map_err(|error| fail(rt, "file name", error)),
    }
}

// Prints the listing of the file that the arguments name; `-` stands for standard input.
fn print_file<R: Env + Files + Input + Print + Eprint>(rt: &R) -> Result<(), ExitCode> {
    let mut word = [0u8; 4096];
    let Err(FillError::NotPresent) = rt.arg(2, &mut word) else {
        let _ = eprintln!(rt; "usage: lister_main [FILE]");
        return Ok(());
    };
    let name = file_name(rt, &mut word)?;
    if name == "-" {
        return print_listing(rt, &mut rt.reader(), "standard input");
    }
    let mut file = File::open(rt, name).map_err(|error| fail(rt, name, error))?;
    print_listing(rt, &mut file, name)
}

fn main(rt: HostRuntime) -> ExitCode {
    match print_file(&rt) {
        Ok(()) => ExitCode::SUCCESS,
        Err(status) => status,
    }
}
