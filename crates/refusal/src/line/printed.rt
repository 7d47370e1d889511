// What a line gives to be read and printed.
ghost use Rattle.std.specs.Prelude.{◌≡◌, ◌≤◌, length, Some};
ghost use Rattle.refusal.specs.Line.{text_of};

use crate::line::Line;
use std::{fmt, str};

impl Line {
    pub fn as_bytes(&self) -> &[u8]
        ensures text { result.now ≡ text_of self.now }
        ensures fits { length result.now ≤ 96 }
    {
        &self.bytes[..self.length]
    }
}

// Prints the line as it is. Width and fill are ignored: blanks behind the end byte would begin another line.
impl fmt::Display for Line {
    ghost output = { λ l. Some (text_of l) };

    fn fmt<W: fmt::Write>(&self, f: &mut fmt::Formatter<W>) -> fmt::Result {
        let Ok(text) = str::from_utf8(self.as_bytes()) else {
            unreachable!()
        };
        f.write_str(text)
    }
}
