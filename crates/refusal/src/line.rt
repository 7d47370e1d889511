// The line that reports a refused load to people, written without an allocator. Its functions stand in the modules below.
ghost use Rattle.std.specs.Prelude.{◌≤◌, take, IsUtf8};

mod printed;
mod refused;

// The text is the first `length` bytes; the rest are zeros that nobody reads. No `ArrayString`, with which the line is
// written: a struct that holds one is not copied where it is passed by value and used again. There is room for the
// longest line, which has 92 bytes.
#[derive(Clone, Copy)]
pub struct Line {
    bytes: [u8; 96],
    length: usize,
    ghost fits: { length ≤ 96 },
    // a ghost field's fact may have one proof at most
    ghost is_text: { ∥ IsUtf8 (take length bytes) ∥₁ },
}
