// Letters: the inverse of one, and many copied.
ghost use Rattle.std.specs.Prelude.{◌≤◌, ◌≡◌, length};
ghost use Rattle.words.specs.Buffers.{written};
ghost use Rattle.words.specs.Alphabet.{flip_byte};

// The inverse of a letter.
pub fn flip(x: u8) -> u8
    ensures { result ≡ flip_byte x }
{
    x ^ 32
}

// Copies a word to the beginning of a buffer.
pub fn copy(word: &[u8], out: &mut [u8])
    requires { length word.now ≤ length out.old }
    ensures { out.new ≡ written word.now out.old }
{
    out[..word.len()].copy_from_slice(word);
}
