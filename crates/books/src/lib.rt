// Books: the tables of an automaton over symbol codes, and the check that makes a book of a draft of them.
#![tactic(auto)]

mod book;
mod copies;
mod draft;
mod fault;
mod table;

pub use book::Book;
pub use draft::Draft;
pub use fault::BookFault;
