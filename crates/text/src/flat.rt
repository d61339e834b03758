// The flat store: the text at the front of its memory.
ghost use Rattle.std.specs.Prelude.{◌≤◌, vec_len};

mod methods;

// The text is the first `len` bytes of the memory; those behind are free. The length stands beside the memory, since that is handed
// over and given back whole, with its bytes.
#[derive(Drop)]
pub struct FlatStore {
    memory: Vec<u8>,
    len: usize,
    ghost within: { len ≤ vec_len memory },
}
