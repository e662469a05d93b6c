// The lookup's table: 1,024 places, one for each index, with the turn of the register that has it.
ghost use Rattle.std.specs.Prelude.{◌≡◌, ◌<◌};
ghost use Rattle.csr.specs.Inner.{at_index, place};

use crate::{COUNT, turns_had};
use layout::xlen::Xlen;

// No register: 25, which is no turn.
// Kept: a number, and not an Option, which takes two bytes a place; a place is one byte, so that the table is 1,024 bytes of read-only memory.
const N: u8 = 25;

// Sixteen places of no register.
const EMPTY: [u8; 16] = [N; 16];

// The turns by index, sixteen places in a row.
static TURN_AT: [[u8; 16]; 64] = [
    // 0x000: vsstatus, vsie, vstvec
    [18, N, N, N, 7, 19, N, N, N, N, N, N, N, N, N, N],
    EMPTY,
    EMPTY,
    EMPTY,
    // 0x040: vsscratch, vsepc, vscause, vstval, vsip
    [20, 21, 22, 23, 8, N, N, N, N, N, N, N, N, N, N, N],
    EMPTY,
    EMPTY,
    EMPTY,
    // 0x080: vsatp
    [24, N, N, N, N, N, N, N, N, N, N, N, N, N, N, N],
    EMPTY,
    EMPTY,
    EMPTY,
    EMPTY,
    EMPTY,
    EMPTY,
    EMPTY,
    // 0x100: hstatus, hedeleg, hideleg, hie, htimedelta, hcounteren, hgeie, henvcfg
    [0, N, 9, 3, 5, 10, 12, 2, N, N, 13, N, N, N, N, N],
    // 0x110: htimedeltah, henvcfgh
    [N, N, N, N, N, 11, N, N, N, N, 14, N, N, N, N, N],
    EMPTY,
    EMPTY,
    // 0x140: htval, hip, hvip, htinst
    [N, N, N, 15, 6, 4, N, N, N, N, 16, N, N, N, N, N],
    EMPTY,
    EMPTY,
    EMPTY,
    // 0x180: hgatp
    [17, N, N, N, N, N, N, N, N, N, N, N, N, N, N, N],
    EMPTY,
    EMPTY,
    EMPTY,
    EMPTY,
    EMPTY,
    EMPTY,
    EMPTY,
    EMPTY,
    EMPTY,
    EMPTY,
    EMPTY,
    EMPTY,
    EMPTY,
    EMPTY,
    EMPTY,
    EMPTY,
    EMPTY,
    EMPTY,
    EMPTY,
    EMPTY,
    EMPTY,
    EMPTY,
    EMPTY,
    EMPTY,
    // 0x310: hgeip
    [N, N, 1, N, N, N, N, N, N, N, N, N, N, N, N, N],
    EMPTY,
    EMPTY,
    EMPTY,
    EMPTY,
    EMPTY,
    EMPTY,
    EMPTY,
    EMPTY,
    EMPTY,
    EMPTY,
    EMPTY,
    EMPTY,
    EMPTY,
    EMPTY,
];

// What place i holds: a turn, or 25 for none.
fn turn_at(i: usize) -> usize
    requires { i < 1024 }
    ensures { result ≡ place i }
{
    TURN_AT[i / 16][i % 16] as usize
}

// The turn of the register with index i, if the width has one.
pub fn at_index(x: Xlen, i: usize) -> Option<usize>
    requires { i < 1024 }
    ensures { result ≡ at_index x i }
{
    let t = turn_at(i);
    if t < COUNT && (turns_had(x) >> t) % 2 == 1 {
        Some(t)
    } else {
        None
    }
}
