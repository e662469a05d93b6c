// SRET: what the features offer is synchronized, the general registers are loaded, hstatus is swapped, and the hart goes on where sepc says.
ghost use Rattle.std.specs.Prelude.{◌≡◌, List, ℕ, ◌+◌, ◌*◌, ◌^◌, ◌<◌, ◌≤◌, length};
ghost use Rattle.text.specs.Buffer.{Put};
ghost use Rattle.hart.specs.Dropped.{report_words};
ghost use Rattle.hart.specs.declared.record.Hart.{Hart};
ghost use Rattle.page.specs.Registers.{IsPage};
ghost use Rattle.world.specs.State.{state_from};
ghost use Rattle.turns.specs.Turn.{turns};
ghost use Rattle.turns.specs.Steps.{steps};
ghost use Rattle.turns.specs.Reports.{reports};
ghost use Rattle.csr.specs.Csrs.{csr_count};
ghost use Rattle.sret.specs.Context.{general};
ghost use Rattle.sret.specs.Sret.{csrs_offered, entries_offered, sret, sret_reports};

use crate::swap;
use hart::features;
use hart::record::Hart;
use layout::xlen::Xlen;
use layout::{place, word};
use pass::serve;
use sync::{clean, registers};
use text::Buffer;

// The general registers from the SRET context: X1 to X31, and X0 0.
fn load_context(xlen: Xlen, page: &[u8]) -> [u64; 32]
    requires { IsPage xlen page.now }
    ensures { result ≡ general xlen page.now }
{
    let mut x = [0u64; 32];
    for i in 1..32 {
        x[i] = word::word_at(xlen, page, place::context_at(xlen, i));
    }
    x
}

// All registers' turns, if feature 0. The table has no part in them: the contract holds whatever it is.
fn sync_registers(h: Hart, page: &mut [u8], told: &mut Buffer<u64>) -> Hart
    requires { (IsPage h.xlen page.old) × (told.old.at + 2 * csr_count < 2 ^ 64) }
    ensures { ((table : List ℕ) → state_from result page.new table
        ≡ turns h.xlen (csrs_offered h.xlen h.features) (state_from h page.old table))
        × ((table : List ℕ) → Put told.old (report_words (reports h.xlen
        (steps h.xlen (csrs_offered h.xlen h.features) (state_from h page.old table)) (state_from h page.old table))) told.new)
        × (told.new.at ≤ told.old.at + 2 * csr_count) }
{
    if features::has(h.features, 0) {
        // No synchronization has as many steps as are allowed.
        return registers::turns(h, page, 0, csr::COUNT, u64::MAX, told).hart;
    }
    h
}

// All entries' turns, if feature 1. The record has no other part in them.
fn sync_entries(x: Xlen, features: u64, page: &mut [u8], table: &mut [u64])
    requires { (IsPage x page.old) × (length table.old ≤ 1024) }
    ensures { (h : Hart) → state_from h page.new table.new
        ≡ turns x (entries_offered x features) (state_from h page.old table.old) }
{
    if features::has(features, 1) {
        serve::serve(x, page, table);
    }
}

// SRET: all registers if feature 0, all entries if feature 1, X1 to X31, the swap if feature 3 and flag bit 0, the return, and then the
// clean words of hstatus, hip and vsip. What the register writes say is put into `told`.
pub fn resume(h: Hart, page: &mut [u8], table: &mut [u64], told: &mut Buffer<u64>) -> Hart
    requires { (IsPage h.xlen page.old) × (length table.old ≤ 1024) × (told.old.at + 2 * csr_count + 2 < 2 ^ 64) }
    ensures table_after { state_from result page.new table.new ≡ sret h.xlen (state_from h page.old table.old) }
    ensures puts { Put told.old (report_words (sret_reports h.xlen (state_from h page.old table.old))) told.new }
{
    let synced = sync_registers(h, page, told);
    sync_entries(h.xlen, h.features, page, table);
    let loaded = synced.with_general(load_context(h.xlen, page));
    let swapped = swap::autoswap(loaded, page, told);
    let back = swapped.returned();
    clean::store_words(&back, page, csr::HSTATUS);
    back
}
