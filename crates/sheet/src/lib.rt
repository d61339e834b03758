// A sheet: a text in a store, with the lists of its tokens and of its lines, which stay right after every correction.
#![tactic(auto)]

mod asking;
mod corrections;
mod entries;
mod lists;
mod opening;
mod parts;
mod sheets;

pub use parts::{Parts, Unopened};
pub use sheets::Sheet;
