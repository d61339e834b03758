// Text stores: a byte string in memory that is handed over, behind one interface, with two ways to keep it there.
#![tactic(auto)]

mod fault;
mod flat;
mod gap;
mod moves;
mod store;

pub use fault::StoreFault;
pub use flat::FlatStore;
pub use gap::GapStore;
pub use store::TextStore;
