// A lent buffer that is written from its beginning on.
ghost use Rattle.std.specs.Prelude.{◌+◌, ◌<◌, ◌≤◌, [], ◌∷◌, ◌≡◌, length};
ghost use Rattle.words.specs.Writers.{Puts};

use crate::letters::copy;

// A lent buffer, and how many bytes of it are written.
#[derive(Drop)]
pub struct Writer<'a> {
    buffer: &'a mut [u8],
    at: usize,
}

impl<'a> Writer<'a> {
    // A buffer of which no byte is written yet.
    pub fn new(buffer: &'a mut [u8]) -> Writer<'a>
        ensures same_buffer { result.buffer.ghost_name ≡ buffer.entry.ghost_name }
        ensures buffer { result.buffer.now ≡ buffer.old }
        ensures place { result.at ≡ 0 }
    {
        Writer { buffer, at: 0 }
    }

    // Writes a byte.
    pub fn put(&mut self, b: u8)
        requires { self.old.at < length self.old.buffer.now }
        ensures { Puts self.old (b ∷ []) self.new }
    {
        self.buffer[self.at] = b;
        self.at += 1;
    }

    // Writes bytes.
    pub fn put_all(&mut self, bytes: &[u8])
        requires { self.old.at + length bytes.now ≤ length self.old.buffer.now }
        ensures { Puts self.old bytes.now self.new }
    {
        copy(bytes, &mut self.buffer[self.at..]);
        self.at += bytes.len();
    }

    // How many bytes are written.
    pub fn len(&self) -> usize
        ensures { result ≡ self.now.at }
    {
        self.at
    }
}
