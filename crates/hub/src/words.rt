// Eight bytes as one word of 64 bits, the first one lowest: turned by one byte, and written.
ghost use Rattle.std.specs.Prelude.{◌≡◌, ◌+◌, ◌≤◌, length};
ghost use Rattle.std.proofs.lemmas.List.Edits.{sets};
ghost use Rattle.hub.specs.Words.{low_bytes, turn};

// A word turned by one byte: the lowest one is now the highest.
pub(crate) fn turned(word: u64) -> u64
    ensures { result ≡ turn word }
{
    word.rotate_right(8)
}

// The eight bytes of a word, from a place on. The compiler makes one store of them.
pub(crate) fn put_eight(out: &mut [u8], at: usize, word: u64)
    requires { at + 8 ≤ length out.old }
    ensures { out.new ≡ sets out.old at (low_bytes 8 word) }
{
    out[at..at + 8].copy_from_slice(&word.to_le_bytes());
}
