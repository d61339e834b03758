// What can be asked of a sheet, and what is answered.
#![tactic(auto)]

mod answers;
mod faults;
mod requests;

pub use answers::{Answer, Reports};
pub use faults::SheetFault;
pub use requests::Request;
