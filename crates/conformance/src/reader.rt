// Whether a sheet's tokens, by the proved reader, are those that are expected.
ghost use Rattle.std.specs.Prelude.{◌≡◌, IfOk, Decides};
ghost use Rattle.conformance.specs.Spans.{spans, spans_of};

use crate::vectors::Span;
use anyhow::bail;
use lister::{LIMIT, tokens};
use scanner::Token;
use std::alloc::{AllocError, Global};

// Kinds and lengths of these tokens.
fn read_spans(heap: Global, tokens: &[Token]) -> Result<Vec<Span>, AllocError>
    ensures { IfOk result (λ v. v.items ≡ spans tokens.now) }
{
    tokens.iter().map(|token| Span::from(*token)).collect(heap)
}

// Has the sheet tokens of these kinds and lengths, one by one, and no others?
pub(crate) fn agrees(heap: Global, sheet: &[u8], expected: &[Span]) -> anyhow::Result<bool>
    ensures { IfOk result (λ yes. Decides yes (spans_of sheet.now ≡ expected.now)) }
{
    if sheet.len() > LIMIT {
        bail!("a sheet is too long");
    }
    let tokens = tokens(heap, sheet)?;
    let found = read_spans(heap, tokens.as_slice())?;
    let found = found.as_slice();
    Ok(found == expected)
}
