// An input, read to its end.
ghost use Rattle.std.specs.Prelude.{◌+◌, ℕ, List, ◌++◌, ◌≡◌, take, IfOk, IfSome, OnErr, OnOk};
ghost use Rattle.std.specs.Io.KnownBytes.{ReadConsumes};
ghost use Rattle.input.specs.Input.{Holds, ReadInput, counted, kept_after};

use input::Kept;
use std::io;
use std::io::{ErrorKind, Read};

// Reads an input to its end: its first bytes are kept, and all are counted.
pub fn read_input<R: Read>(input: &mut R, kept: &mut Kept<'_>) -> io::Result<()>
    ensures some_input { ReadInput kept.old.bytes.now kept.old.size → ReadInput kept.new.bytes.now kept.new.size }
    ensures all_of_it { OnOk result (IfSome (R.remaining input.old) (λ rest. (before : List ℕ) → Holds before kept.old.bytes.now kept.old.size → Holds (before ++ rest) kept.new.bytes.now kept.new.size)) }
    ensures same_buffer { kept.new.bytes.ghost_name ≡ kept.old.bytes.ghost_name }
{
    let mut chunk = [0u8; 4096];
    for _ in 0..u64::MAX {
        let got = read_part(input, &mut chunk, kept)?;
        if got == 0 {
            return Ok(());
        }
    }
    Err(ErrorKind::FileTooLarge.into())
}

// Reads the next part of an input into a chunk; what the chunk then begins with is kept and counted. Answers how many bytes came, none at the end.
fn read_part<R: Read>(input: &mut R, chunk: &mut [u8], kept: &mut Kept<'_>) -> io::Result<usize>
    ensures size { IfOk result (λ got. kept.new.size ≡ counted (kept.old.size + got)) }
    ensures bytes { IfOk result (λ got. kept.new.bytes.now ≡ kept_after (take got chunk.new) kept.old.bytes.now kept.old.size) }
    ensures means { IfOk result (λ got. (before : List ℕ) → Holds before kept.old.bytes.now kept.old.size → Holds (before ++ take got chunk.new) kept.new.bytes.now kept.new.size) }
    ensures part { ReadConsumes (R.remaining input.old) (R.remaining input.new) result chunk.new }
    ensures err { OnErr result (kept.new ≡ kept.old) }
    ensures same_buffer { kept.new.bytes.ghost_name ≡ kept.old.bytes.ghost_name }
{
    let got = input.read(chunk)?;
    kept.keep(&chunk[..got]);
    Ok(got)
}
