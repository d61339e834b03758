// Bytes moved and written inside a memory.
ghost use Rattle.std.specs.Prelude.{◌≡◌, ◌+◌, ◌-◌, ◌≤◌, length, drop};
ghost use Rattle.std.proofs.Math.Seq.{paste};

// Moves the bytes from `from` up to `end` so that they start at `to`. Costs as many bytes as it moves, and nothing where they stay.
pub(crate) fn slide(memory: &mut [u8], from: usize, end: usize, to: usize)
    requires { (from ≤ end) × (end ≤ length memory.old) × (to + (end - from) ≤ length memory.old) }
    ensures { memory.new ≡ paste memory.old to (drop from memory.old) (end - from) }
{
    if from != to {
        memory.copy_within(from..end, to);
    }
}

// Writes the bytes from the place on.
pub(crate) fn put(memory: &mut [u8], place: usize, bytes: &[u8])
    requires { place + length bytes.now ≤ length memory.old }
    ensures { memory.new ≡ paste memory.old place bytes.now (length bytes.now) }
{
    let end = place + bytes.len();
    memory[place..end].copy_from_slice(bytes);
}
