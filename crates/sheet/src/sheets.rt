// The sheet.
use crate::entries::Entries;
use counts::{Bytes, Lines, Tokens};

// A text in a store, with the list of its tokens and the list of its lines. That they are the text's (`Right`) is a clause of the calls and no ghost field: the type would then ask of every S that it is a store.
#[derive(Drop)]
pub struct Sheet<S> {
    pub(crate) store: S,
    pub(crate) tokens: Entries<Bytes, Tokens>,
    pub(crate) lines: Entries<Tokens, Lines>,
}
