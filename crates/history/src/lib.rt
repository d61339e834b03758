// The history of a sheet: any list of requests made to it, one after the other, and the whole promise over it.
#![tactic(auto)]

mod histories;
mod making;
mod outcomes;

pub use histories::perform;
pub use outcomes::{Performed, Reason, Unperformed};
