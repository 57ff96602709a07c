// A list of bytes in a buffer of its own. A contract sees the bytes alone.
ghost use Rattle.std.specs.Prelude.{◌+◌, ◌<◌, ◌≤◌, [], ◌++◌, ◌∷◌, ◌≡◌, length};

use crate::letters::copy;
use std::marker::Model;

// At most ROOM bytes.
#[derive(Drop)]
pub struct Bytes<const ROOM: usize> {
    bytes: [u8; ROOM],
    size: usize,
}

impl<const ROOM: usize> Model for Bytes<ROOM> {
    ghost use Rattle.std.specs.Prelude.{List, ℕ, ◌≤◌, take};

    ghost Value = { List ℕ };

    ghost view = { λ b. take b.size b.bytes };

    ghost invariant = { λ b. b.size ≤ ROOM };
}

impl<const ROOM: usize> Bytes<ROOM> {
    // No bytes.
    pub fn new() -> Self
        ensures { result ≡ [] }
    {
        Bytes {
            bytes: [0; ROOM],
            size: 0,
        }
    }

    // The bytes of the list.
    pub fn as_slice(&self) -> &[u8]
        ensures bytes { result.now ≡ self.now }
        ensures most { length self.now ≤ ROOM }
    {
        &self.bytes[..self.size]
    }

    // How many bytes the list has.
    pub fn len(&self) -> usize
        ensures { result ≡ length self.now }
    {
        self.size
    }

    // Puts a byte after the list.
    pub fn push(&mut self, byte: u8)
        requires { length self.old < ROOM }
        ensures { self.new ≡ self.old ++ byte ∷ [] }
    {
        self.bytes[self.size] = byte;
        self.size += 1;
    }

    // Puts bytes after the list.
    pub fn push_all(&mut self, bytes: &[u8])
        requires { length self.old + length bytes.now ≤ ROOM }
        ensures { self.new ≡ self.old ++ bytes.now }
    {
        let buffer = &mut self.bytes[..];
        copy(bytes, &mut buffer[self.size..]);
        self.size += bytes.len();
    }
}
