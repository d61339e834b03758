// What comes of a history.
use requests::{Answer, Request, SheetFault};
use sheet::{Parts, Sheet};

// Why no request was made.
#[derive(Clone, Copy)]
pub enum Reason {
    // There is no memory for the answers.
    NoMemory,
    // The sheet was not opened.
    Fault(SheetFault),
}

// Nothing was touched, and all is given back.
#[derive(Drop)]
pub struct Unperformed<S> {
    pub reason: Reason,
    pub parts: Parts<S>,
    pub requests: Vec<Request>,
}

// The sheet after the last request, and the answer to each.
#[derive(Drop)]
pub struct Performed<S> {
    pub sheet: Sheet<S>,
    pub answers: Vec<Answer>,
}
