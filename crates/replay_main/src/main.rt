// Replays a recording and prints a line for each of its records.
//
//     replay_main [FILE]
//
// Without FILE, or with `-` for it, the recording is read from standard input. It is read in pieces, and the lines are printed as they come. An input
// that cannot be read is told on standard error, and so are lines that cannot be written: the exit status is then 1. In every other case it is 0.
#![tactic(auto)]

ghost use Rattle.std.specs.Prelude.{◌≡◌, true, ◌≤◌, length, IfOk};
ghost use Rattle.replay.specs.Replay.{fed};
ghost use Rattle.replay.specs.Code.{state_of, ready, longest_line};

use replay::{Replay, feed, line, start};
use std::env::FillError;
use std::fmt::Display;
use std::fs::File;
use std::io::Read;
use std::process::ExitCode;
use std::rt::{Env, Files};
use std::str;

// Tells on standard error what failed and why, and answers the exit status for that. Where standard error fails too, nobody is left to be told.
fn fail<D: Display + Drop>(rt: &impl Eprint, what: &str, why: D) -> ExitCode {
    let _ = eprintln!(rt; "{what}: {why}");
    ExitCode::FAILURE
}

// Prints lines.
fn print(rt: &(impl Print + Eprint), lines: &[u8]) -> Result<(), ExitCode> {
    rt.write_all(lines)
        .map_err(|error| fail(rt, "standard output", error))
}

// Feeds a piece, and prints the lines, as often as there is more of them than the buffer holds.
fn feed_piece(
    rt: &(impl Print + Eprint),
    s: Replay,
    memory: &mut [u8],
    table: &mut [u64],
    pending: &mut [u8],
    piece: &[u8],
    out: &mut [u8],
) -> Result<Replay, ExitCode>
    requires { (ready s pending.old ≡ true) × (longest_line ≤ length out.old) }
    ensures { IfOk result (λ replay. (ready replay pending.new ≡ true)
        × (state_of replay memory.new table.new pending.new ≡ (fed (state_of s memory.old table.old pending.old) piece.now).state)) }
{
    let mut replay = s;
    let mut rest = piece;
    // Kept: no index is counted: a part is taken as far as there is room for lines.
    while !rest.is_empty() {
        let fed = feed::feed(replay, memory, table, pending, rest, out);
        print(rt, &out[..fed.written])?;
        replay = fed.replay;
        rest = &rest[fed.taken..];
    }
    Ok(replay)
}

// The recording is over: prints the line of a last record that is not whole.
fn print_end(rt: &(impl Print + Eprint), s: Replay) -> Result<(), ExitCode> {
    let mut out = [0u8; line::LONGEST];
    let written = feed::finish(s, &mut out);
    print(rt, &out[..written])
}

// Replays what an input gives, up to a bad header. A proved loop has to end, and nothing says that an input does: the loop counts to a number that no
// run reaches.
fn replay_all<I: Read>(
    rt: &(impl Print + Eprint),
    input: &mut I,
    name: &str,
) -> Result<(), ExitCode> {
    let mut memory = [0u8; 12288];
    let mut table = [0u64; 256];
    let mut pending = [0u8; recording::LONGEST];
    let mut piece = [0u8; 65536];
    let mut out = [0u8; 65536];
    let mut replay = start::start(&mut memory, &mut table);
    'pieces: for _ in 0..u64::MAX {
        let n = input
            .read(&mut piece)
            .map_err(|error| fail(rt, name, error))?;
        if n == 0 {
            return print_end(rt, replay);
        }
        replay = feed_piece(
            rt,
            replay,
            &mut memory,
            &mut table,
            &mut pending,
            &piece[..n],
            &mut out,
        )?;
        if replay.ended {
            break;
        }
    }
    Ok(())
}

// The name of the file to read: the first argument, or `-` where there is none.
// Kept: this, `fail`, and the opening of the file are as in lister_main; a crate for them would have public functions of which no contract says anything.
fn file_name<'a>(rt: &(impl Env + Eprint), word: &'a mut [u8]) -> Result<&'a str, ExitCode> {
    match rt.arg(1, word) {
        Err(FillError::NotPresent) => Ok("-"),
        Err(FillError::TooLong) => Err(fail(rt, "file name", "File name too long")),
        Ok(n) => str::from_utf8(&word[..n]).map_err(|error| fail(rt, "file name", error)),
    }
}

// Replays the file that the arguments name; `-` stands for standard input.
fn replay_file<R: Env + Files + Input + Print + Eprint>(rt: &R) -> Result<(), ExitCode> {
    let mut word = [0u8; 4096];
    let Err(FillError::NotPresent) = rt.arg(2, &mut word) else {
        let _ = eprintln!(rt; "usage: replay_main [FILE]");
        return Ok(());
    };
    let name = file_name(rt, &mut word)?;
    if name == "-" {
        return replay_all(rt, &mut rt.reader(), "standard input");
    }
    let mut file = File::open(rt, name).map_err(|error| fail(rt, name, error))?;
    replay_all(rt, &mut file, name)
}

fn main(rt: HostRuntime) -> ExitCode {
    match replay_file(&rt) {
        Ok(()) => ExitCode::SUCCESS,
        Err(status) => status,
    }
}
