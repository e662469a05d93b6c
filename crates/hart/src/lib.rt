// The hart record and the register rules at either width: the registers, their readings and writes, and what is well made.
#![tactic(auto)]

ghost use Rattle.std.specs.Prelude.{◌≡◌, [], ◌∷◌};
ghost use Rattle.layout.specs.Geometry.{page_size, entry_count};

use crate::record::Hart;

pub mod alias;
pub mod features;
pub mod legal;
pub mod rebuild;
pub mod record;
pub mod registers;
pub mod trap;
pub mod well_made;
pub mod width;
pub mod writes;

// Holds the hart's constants to the page's geometry.
fn constants() -> [usize; 2]
    ensures { result ≡ page_size 8 ∷ entry_count 8 ∷ [] }
{
    [Hart::PAGE_SIZE, Hart::ENTRY_COUNT]
}
