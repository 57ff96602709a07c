// What printing answers.

// Why no output was written: it has so many bytes and the lent buffer fewer, or the input's length is not refused and fewer bytes were kept.
#[derive(Clone, Copy, Debug, PartialEq, Eq)]
pub enum Unprinted {
    Short(usize),
    Missing,
}

// No output has more bytes: a first line, 16 slots, 8,192 moves and a product.
pub const OUTPUT: usize = 66704;
