// Scripts of a history: a sheet to be opened and the requests to it, read from bytes.
#![tactic(auto)]

mod bytes;
mod commands;
mod fields;
mod names;
mod numbers;
mod plans;
mod scripts;
mod sizes;
mod texts;
mod wrong;

pub use plans::Plan;
pub use scripts::{Script, StoreKind, parse};
pub use wrong::{Broken, Wrong};
