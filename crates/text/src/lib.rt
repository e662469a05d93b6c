// Text in a lent buffer: byte strings, and numbers in hexadecimal and decimal.
// Each method writes from the buffer's place on and moves the place on. What has no room is left out and counted all the same.
#![tactic(auto)]

ghost use Rattle.std.specs.Prelude.{◌≡◌, [], ◌∷◌, ◌++◌, ◌+◌, ◌^◌, ◌<◌, ◌≤◌, length};
ghost use Rattle.text.specs.Buffer.{Wrote, Put};
ghost use Rattle.text.specs.Numerals.{glyph as glyph_of, hex, last_digits, decimal};

// A lent buffer, and the place after what is written.
#[derive(Drop)]
pub struct Buffer<'a, T> {
    pub out: &'a mut [T],
    pub at: usize,
}

impl<'a, T: Copy> Buffer<'a, T> {
    // A lent buffer that is written from a place on.
    pub fn new(out: &'a mut [T], at: usize) -> Buffer<'a, T>
        ensures same_reference { result.out.ghost_name ≡ out.entry.ghost_name }
        ensures same { result.out.now ≡ out.old }
        ensures place { result.at ≡ at }
    {
        Buffer { out, at }
    }

    // Puts one item: a byte of a text, a word of a report.
    pub fn put(&mut self, item: T)
        requires { self.old.at + 1 < 2 ^ 64 }
        ensures { Put self.old (item ∷ []) self.new }
    {
        if self.at < self.out.len() {
            self.out[self.at] = item;
        }
        self.at += 1;
    }
}

impl<'a> Buffer<'a, u8> {
    // Puts a byte string.
    pub fn put_text(&mut self, text: &[u8])
        requires { self.old.at + length text.now < 2 ^ 64 }
        ensures { Put self.old text.now self.new }
    {
        self.at = text_from(self.out, self.at, text);
    }

    // Puts the last `digits` hexadecimal digits of n, in lower case.
    pub fn put_hex(&mut self, n: u64, digits: usize)
        requires { self.old.at + digits < 2 ^ 64 }
        ensures puts { Put self.old (hex digits n) self.new }
        ensures room { self.new.at ≤ self.old.at + digits }
    {
        self.at = hex_from(self.out, self.at, n, digits);
    }

    // Puts n in decimal.
    pub fn put_decimal(&mut self, n: u64)
        requires { self.old.at + 20 < 2 ^ 64 }
        ensures puts { Put self.old (decimal n) self.new }
        ensures room { self.new.at ≤ self.old.at + 20 }
    {
        self.at = digits_from(self.out, self.at, n, 20);
    }

    // Puts a name and a number in decimal.
    pub fn put_field(&mut self, name: &[u8], n: u64)
        requires { self.old.at + length name.now + 20 < 2 ^ 64 }
        ensures puts { Put self.old (name.now ++ decimal n) self.new }
        ensures room { self.new.at ≤ self.old.at + length name.now + 20 }
    {
        self.put_text(name);
        self.put_decimal(n);
    }
}

// What follows writes into the slice from a place on and answers the place after.
// Kept: no methods: a loop or a recursion over `&mut self` reads and writes the buffer's fields at each byte, and listings took twice the time.

// Puts a byte.
fn put_byte(out: &mut [u8], at: usize, b: u8) -> usize
    requires { at + 1 < 2 ^ 64 }
    ensures { Wrote out.old at (b ∷ []) out.new result }
{
    if at < out.len() {
        out[at] = b;
    }
    at + 1
}

// Puts a byte string.
fn text_from(out: &mut [u8], at: usize, text: &[u8]) -> usize
    requires { at + length text.now < 2 ^ 64 }
    ensures { Wrote out.old at text.now out.new result }
{
    let mut next = at;
    for &b in text {
        next = put_byte(out, next, b);
    }
    next
}

// Puts the last `digits` hexadecimal digits of n, in lower case.
fn hex_from(out: &mut [u8], at: usize, n: u64, digits: usize) -> usize
    requires { at + digits < 2 ^ 64 }
    ensures { Wrote out.old at (hex digits n) out.new result }
{
    if digits == 0 {
        return at;
    }
    let next = hex_from(out, at, n / 16, digits - 1);
    put_byte(out, next, glyph(n % 16))
}

// Puts n in decimal, with no zeros in front, where it has no more than `digits` digits.
fn digits_from(out: &mut [u8], at: usize, n: u64, digits: usize) -> usize
    requires { at + digits < 2 ^ 64 }
    ensures { Wrote out.old at (last_digits digits n) out.new result }
{
    if digits == 0 {
        return at;
    }
    if n < 10 {
        return put_byte(out, at, glyph(n));
    }
    let next = digits_from(out, at, n / 10, digits - 1);
    put_byte(out, next, glyph(n % 10))
}

// The ASCII code of a digit.
fn glyph(d: u64) -> u8
    requires { d < 16 }
    ensures { result ≡ glyph_of d }
{
    if d < 10 { 48 + d as u8 } else { 87 + d as u8 }
}
