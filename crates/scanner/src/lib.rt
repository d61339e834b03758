// Batch reading: the code that computes the entries of a text under a book, written once for symbols of every kind.
#![tactic(auto)]

mod entries;
mod lists;
mod lookbacks;
mod scans;
mod symbols;

pub use entries::{Entry, Line, Token};
pub use lists::read_all;
pub use lookbacks::{Spot, advance, set_lookbacks};
pub use scans::Scanner;
pub use symbols::{Kinds, StoreBytes, Symbols};
