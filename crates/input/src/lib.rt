// The program's input, which comes in parts: its first bytes are kept, and all are counted.
#![tactic(auto)]

ghost use Rattle.std.specs.Prelude.{◌+◌, ◌≤◌, ℕ, ◌≡◌, List, ◌++◌, length};
ghost use Rattle.input.specs.Input.{Holds, counted, kept_after};

// The bytes of 17 records: a target, and the most that a system has.
pub const LONGEST: usize = 1088;

// What is kept of an input so far: its first bytes, in a lent buffer, and the count of all that have come.
#[derive(Drop)]
pub struct Kept<'a> {
    pub bytes: &'a mut [u8],
    pub size: usize,
}

impl Kept<'_> {
    // Keeps the next part of the input, up to 1,088 bytes and as far as there is room, and counts it.
    pub fn keep(&mut self, next: &[u8])
        ensures size { self.new.size ≡ counted (self.old.size + length next.now) }
        ensures bytes { self.new.bytes.now ≡ kept_after next.now self.old.bytes.now self.old.size }
        ensures same_buffer { self.new.bytes.ghost_name ≡ self.old.bytes.ghost_name }
        ensures means { (input : List ℕ) → Holds input self.old.bytes.now self.old.size → Holds (input ++ next.now) self.new.bytes.now self.new.size }
    {
        keep_bytes(next, self.bytes, self.size);
        self.size = count(count(self.size) + count(next.len()));
    }
}

// Copies the next part of an input after the bytes that came before, up to 1,088 bytes and as far as there is room.
fn keep_bytes(next: &[u8], kept: &mut [u8], size: usize)
    ensures { kept.new ≡ kept_after next.now kept.old size }
{
    let room = kept.len().min(LONGEST);
    if size < room {
        let n = next.len().min(room - size);
        kept[size..size + n].copy_from_slice(&next[..n]);
    }
}

// A length as it is counted.
#[tactic(auto, unfolding(crate::specs::Input::counted))]
fn count(n: usize) -> usize
    ensures count { result ≡ counted n }
    ensures most { result ≤ 1215 }
{
    if n <= LONGEST { n } else { 1152 + n % 64 }
}
