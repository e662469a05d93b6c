// A register's word, and its mark.
ghost use Rattle.std.specs.Prelude.{◌≡◌, take};
ghost use Rattle.page.specs.Registers.{IsPage};
ghost use Rattle.hypervisor.specs.Requests.{Register, register_stores, stored_all, RequestIs, RequestFor};

use crate::answer::{Answer, Refusal};
use hart::record::Hart;
use hart::well_made;
use layout::dirty;
use layout::xlen::Xlen;
use page::registers as words;

// How many stores a register has.
const STORES: u64 = 2;

// The first `limit` stores of the register with this turn: its word, and then its mark.
fn put(x: Xlen, page: &mut [u8], t: usize, value: u64, limit: u64)
    requires { IsPage x page.old }
    ensures { page.new ≡ stored_all x (take limit (register_stores x value (Some t))) page.old }
{
    let i = csr::index(t);
    if limit >= 1 {
        words::put_csr(x, page, i, value);
    }
    if limit >= 2 {
        dirty::set_dirty(page, i);
    }
}

// The first `limit` of the two stores by which a register is written; the answer is that of both.
pub fn write_for(x: Xlen, page: &mut [u8], number: u64, value: u64, limit: u64) -> Answer
    ensures { RequestFor limit x (Register number value) page.old result page.new }
{
    if page.len() != Hart::page_size(x) {
        return Err(Refusal::Failed);
    }
    if !well_made::fits_word(x, value) {
        return Err(Refusal::InvalidParam);
    }
    let Some(t) = csr::of_number(x, number) else {
        return Err(Refusal::InvalidParam);
    };
    put(x, page, t, value, limit);
    Ok(0)
}

// Writes the word of the register with this number, and then marks it dirty.
pub fn write(x: Xlen, page: &mut [u8], number: u64, value: u64) -> Answer
    ensures { RequestIs x (Register number value) page.old result page.new }
{
    write_for(x, page, number, value, STORES)
}
