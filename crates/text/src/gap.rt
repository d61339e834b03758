// The gap store: the text in two parts, with the free bytes between them at the end of the last change.
ghost use Rattle.std.specs.Prelude.{◌+◌, ◌≤◌, vec_len};

mod methods;

// The text is the memory without its gap, which starts at `gap` and has `free` bytes. The gap stands beside the memory, since that is
// handed over and given back whole, with its bytes.
#[derive(Drop)]
pub struct GapStore {
    memory: Vec<u8>,
    gap: usize,
    free: usize,
    ghost within: { gap + free ≤ vec_len memory },
}
