// The hypervisor's requests on a page, for C and Rust programs to link. The width is 32 or 64; another gives -1.
ghost use Rattle.hypervisor.specs.Requests.{Register, Hfence, Context};
ghost use Rattle.abi.specs.Requests.{RequestCrosses};

use hypervisor::fences::Asked;
use hypervisor::{answer, context, fences, registers};
use layout::xlen::Xlen;

// Writes the word of a register, by its CSR number, and marks it. 0, or a refusal's code.
#[unsafe(no_mangle)]
pub extern "C" fn nacl_write_csr(page: &mut [u8], xlen: u64, csr: u64, value: u64) -> i64
    ensures { RequestCrosses xlen (Register csr value) page.old result page.new }
{
    let Ok(x) = Xlen::try_from(xlen) else {
        return -1;
    };
    answer::one_number(registers::write(x, page, csr, value))
}

// Queues a fence in the lowest entry that is not pending. The entry's number, or a refusal's code.
#[unsafe(no_mangle)]
pub extern "C" fn nacl_queue_hfence(
    page: &mut [u8],
    xlen: u64,
    kind: u64,
    order: u64,
    vmid: u64,
    asid: u64,
    number: u64,
    count: u64,
) -> i64
    ensures { RequestCrosses xlen (Hfence (record { kind = kind; order = order; vmid = vmid; asid = asid; number = number; count = count }))
        page.old result page.new }
{
    let Ok(x) = Xlen::try_from(xlen) else {
        return -1;
    };
    let asked = Asked {
        kind,
        order,
        vmid,
        asid,
        number,
        count,
    };
    answer::one_number(fences::queue(x, page, asked))
}

// Fills the SRET context from 32 words, X0 to X31, of which X0 is not looked at. 0, or a refusal's code.
#[unsafe(no_mangle)]
pub extern "C" fn nacl_fill_context(page: &mut [u8], xlen: u64, words: &[u64]) -> i64
    ensures { RequestCrosses xlen (Context words.now) page.old result page.new }
{
    let Ok(x) = Xlen::try_from(xlen) else {
        return -1;
    };
    answer::one_number(context::fill(x, page, words))
}
