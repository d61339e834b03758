// Re-reading after a correction, written once for symbols of every kind.
#![tactic(auto)]

mod boundaries;
mod correct;
mod edits;
mod lookbacks;
mod splices;
mod walks;

pub use correct::reread;
pub use edits::{Edit, Report, Reread};
