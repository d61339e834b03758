// The lines in which answers, refusals, texts and broken scripts are told.
#![tactic(auto)]

mod lines;
mod quotes;

pub use lines::{answer_line, broken_line, refusal_line, text_line};
