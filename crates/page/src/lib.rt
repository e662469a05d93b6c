// Registers' words and fence entries in the page.
#![tactic(auto)]

// Kept: a page is its bytes with the width beside them, and `IsPage` a fact of both. In a struct that holds the lent bytes each contract would say that they are still the same ones.
pub mod entries;
pub mod registers;
