// The lines that a replay prints.
ghost use Rattle.std.specs.Prelude.{◌≡◌, ◌+◌, ◌^◌, ◌<◌, ◌≤◌, length};
ghost use Rattle.text.specs.Buffer.{Put};
ghost use Rattle.checks.specs.Codes.{code_of};
ghost use Rattle.replay.specs.Lines.{signed, pair, pairs, line_start, line, reports_told, cut_line, bad_line};
ghost use Rattle.replay.specs.Code.{longest_line};

use checks::answer::{self, Answer};
use text::Buffer;

// No line is longer: numbers of 20 digits, a code of two characters, four spaces, 26 pairs of 21 characters and the newline.
pub const LONGEST: usize = 633;

// Puts a signed number in decimal.
fn put_signed(out: &mut Buffer<u8>, n: i64)
    requires { out.old.at + 21 < 2 ^ 64 }
    ensures puts { Put out.old (signed n) out.new }
    ensures room { out.new.at ≤ out.old.at + 21 }
{
    if n < 0 {
        out.put_text(b"-");
    }
    out.put_decimal(n.unsigned_abs());
}

// What one register write says.
fn put_pair(out: &mut Buffer<u8>, csr: u64, bits: u64)
    requires { out.old.at + 21 < 2 ^ 64 }
    ensures { Put out.old (pair csr bits) out.new }
{
    out.put_text(b" ");
    out.put_hex(csr, 3);
    out.put_text(b" ");
    out.put_hex(bits, 16);
}

// What all of a record's say, two words of each.
fn put_pairs(out: &mut Buffer<u8>, words: &[u64])
    requires { (out.old.at + 546 < 2 ^ 64) × (length words.now ≤ 52) }
    ensures puts { Put out.old (pairs (reports_told words.now)) out.new }
    ensures room { out.new.at ≤ out.old.at + 546 }
{
    for i in 0..words.len() / 2 {
        put_pair(out, words[2 * i], words[2 * i + 1]);
    }
}

// A record's line up to the pairs.
fn put_start(out: &mut Buffer<u8>, number: u64, kind: u64, answer: Answer, steps: u64, removed: u64)
    requires { out.old.at + 105 < 2 ^ 64 }
    ensures puts { Put out.old (line_start number kind answer steps removed) out.new }
    ensures room { out.new.at ≤ out.old.at + 86 }
{
    out.put_decimal(number);
    out.put_field(b" ", kind);
    out.put_text(b" ");
    put_signed(out, answer::code(answer));
    out.put_field(b" ", steps);
    out.put_field(b" ", removed);
}

// Puts a record's line; the words tell its reports.
pub fn put_line(
    out: &mut Buffer<u8>,
    number: u64,
    kind: u64,
    answer: Answer,
    steps: u64,
    removed: u64,
    words: &[u64],
)
    requires { (out.old.at + longest_line < 2 ^ 64) × (length words.now ≤ 52) }
    ensures puts { Put out.old (line number kind answer steps removed (reports_told words.now)) out.new }
    ensures room { out.new.at ≤ out.old.at + longest_line }
{
    put_start(out, number, kind, answer, steps, removed);
    put_pairs(out, words);
    out.put_text(b"\n");
}

// Puts the line of a last record that is not whole.
pub fn put_cut(out: &mut Buffer<u8>, number: u64)
    requires { out.old.at + longest_line < 2 ^ 64 }
    ensures puts { Put out.old (cut_line number) out.new }
    ensures room { out.new.at ≤ out.old.at + longest_line }
{
    out.put_decimal(number);
    out.put_text(b" cut\n");
}

// Puts the line of a header that is not good.
// Kept: a function for each of the two last lines: each has a definition of its own.
pub fn put_bad(out: &mut Buffer<u8>, number: u64)
    requires { out.old.at + longest_line < 2 ^ 64 }
    ensures puts { Put out.old (bad_line number) out.new }
    ensures room { out.new.at ≤ out.old.at + longest_line }
{
    out.put_decimal(number);
    out.put_text(b" bad\n");
}
