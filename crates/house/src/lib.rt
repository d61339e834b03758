// The house books: the token book and the line book of song sheets, with what their kinds mean.
#![tactic(auto)]

mod lines;
mod sound;
mod tokens;

pub use lines::line_book;
pub use tokens::token_book;
