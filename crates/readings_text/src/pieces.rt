// Text handed to a writer piece by piece.
ghost use Rattle.std.specs.Prelude.{IsOk};

use std::fmt;
use std::io::Write;

// A write that fails is passed over, and the next piece is tried.
#[derive(Drop)]
pub(crate) struct Pieces<'a, W> {
    out: &'a mut W,
}

impl<'a, W: Write> Pieces<'a, W> {
    pub(crate) fn new(out: &'a mut W) -> Pieces<'a, W> {
        Pieces { out }
    }
}

impl<W: Write> fmt::Write for Pieces<'_, W> {
    fn write_str(&mut self, s: &str) -> fmt::Result
        ensures goes_on { IsOk result }
    {
        // A number comes in parts, some of them empty.
        if !s.is_empty() {
            let _ = self.out.write_all(s.as_bytes());
        }
        Ok(())
    }
}
