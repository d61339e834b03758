// The answers to requests.
use crate::faults::SheetFault;
use correction::Report;
use counts::{ByteCount, Lines, TokenCount, Tokens};
use scanner::{Line, Token};
use std::marker::Model;

// What a taken correction reports. A contract sees it as the reports of the definitions.
#[derive(Clone, Copy)]
pub struct Reports {
    pub tokens: Report<Tokens>,
    pub lines: Report<Lines>,
}

impl Model for Reports {
    ghost use Rattle.requests.specs.Asked.{Reports as Meant};

    ghost Value = { Meant };

    ghost view = { λ r. record { tokens = r.tokens; lines = r.lines } };

    ghost inverse = { λ r. record { tokens = r.tokens; lines = r.lines } };
}

// The answer to a request, one case for each kind of request.
#[derive(Drop)]
pub enum Answer {
    Corrected(Result<Reports, SheetFault>),
    Token(Option<Token>),
    Line(Option<Line>),
    Where(Option<(TokenCount, ByteCount)>),
    Time(Option<usize>),
    // How many bytes were copied, or why none; and the buffer.
    Copied {
        count: Result<ByteCount, SheetFault>,
        buffer: Vec<u8>,
    },
    Alike(Option<bool>),
}
