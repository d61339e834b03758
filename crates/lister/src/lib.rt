// Lists the tokens of a song sheet under the house token book.
#![tactic(auto)]

ghost use Rattle.std.specs.Prelude.{◌≡◌, ◌≤◌, length, IfOk, string_bytes};
ghost use Rattle.reading.specs.Reading.{batch};
ghost use Rattle.house.specs.House.{house_tokens};
ghost use Rattle.lister.specs.Listing.{listing};

use counts::Count;
use house::token_book;
use scanner::{StoreBytes, Token, read_all};
use std::alloc::{AllocError, Global};
use table::tabulate;
use text::{FlatStore, TextStore};

// The most bytes that a sheet may have.
pub const LIMIT: usize = 4096;

// The tokens of a sheet, through the end token.
pub fn tokens(heap: Global, sheet: &[u8]) -> Result<Vec<Token>, AllocError>
    requires { length sheet.now ≤ 4096 }
    ensures { IfOk result (λ v. v.items ≡ batch house_tokens sheet.now) }
{
    let mut store = FlatStore::new(vec![in heap; 0; sheet.len()]?);
    store.replace(Count::of(0), Count::of(0), sheet).unwrap();
    let mut tokens = vec![in heap; Token::default(); sheet.len() + 1]?;
    let book = token_book();
    let count = read_all(&book, &StoreBytes(&store), tokens.as_mut_slice()).unwrap();
    tokens.truncate(count.get());
    Ok(tokens)
}

// The table of a sheet's tokens, or that the sheet is too long.
#[tactic(auto, using(reading::proofs::Batch::batch_adds_up), unfolding(crate::specs::Listing::listing))]
pub fn list(heap: Global, sheet: &[u8]) -> Result<String, AllocError>
    ensures { IfOk result (λ s. string_bytes s ≡ listing sheet.now) }
{
    if sheet.len() > LIMIT {
        return String::from_str(heap, "too long\n");
    }
    tabulate(heap, tokens(heap, sheet)?.as_slice())
}
