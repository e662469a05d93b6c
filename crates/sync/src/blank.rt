// The page that set leaves: zeroes, and each register's reading in its word.
ghost use Rattle.std.specs.Prelude.{◌≡◌};
ghost use Rattle.csr.specs.Csrs.{turn_order};
ghost use Rattle.hart.specs.declared.record.Hart.{Hart};
ghost use Rattle.page.specs.Registers.{IsPage};
ghost use Rattle.turns.specs.Blank.{put_all, blank as blank_page};

use crate::registers;
use hart::record::Hart;

// Stores the reading of each register of the width in its word, in turn order.
fn readings(h: &Hart, page: &mut [u8])
    requires { IsPage h.now.xlen page.old }
    ensures { page.new ≡ put_all h.now.xlen (turn_order h.now.xlen) h.now page.old }
{
    let had = csr::turns_had(h.xlen);
    for t in 0..csr::COUNT {
        if (had >> t) % 2 == 1 {
            registers::store(h, page, t, csr::index(t));
        }
    }
}

// Blanks the page. Of the record only the stored registers and the lines have a part in it: the contract holds for every record with these two.
pub fn blank(h: &Hart, page: &mut [u8])
    requires { IsPage h.now.xlen page.old }
    ensures { (k : Hart) → k.csrs ≡ h.now.csrs → k.lines ≡ h.now.lines → page.new ≡ blank_page h.now.xlen k }
{
    page.fill(0);
    readings(h, page);
}
