// Lines of a report: a key, `=`, a value and a line feed. Each is written whole or not at all.
ghost use Rattle.std.specs.Prelude.{codes};
ghost use Rattle.report.specs.Lines.{line_text, mean_text};
ghost use Rattle.report.specs.Placed.{Writes};
ghost use Rattle.report.specs.Writer.{PutBy};

use crate::writer::{Writer, put_at};
use itoa::{Buffer, Integer};

// The hints on inlining, here and at the writer's methods, show LLVM each key and sign as the constant that it is. A piece of which
// it knows nothing costs a call of `memmove`, which the library for C would then need from outside, and a report its time.
// So a line takes no closure for its value either: a closure that is called twice, to measure and to write, stays a function.

// Writes the four parts of a line, each if it fits.
#[inline(always)]
fn write_line(out: &mut [u8], at: usize, key: &[u8], value: &[u8]) -> usize
    ensures { Writes (line_text key.now value.now) out.old at out.new result }
{
    let after_key = put_at(out, at, key);
    let after_sign = put_at(out, after_key, b"=");
    let after_value = put_at(out, after_sign, value);
    put_at(out, after_value, b"\n")
}

impl Writer<'_> {
    /// Writes the line of `key` and `value`.
    #[inline(always)]
    pub fn put_line(&mut self, key: &[u8], value: &[u8])
        ensures { PutBy (line_text key.now value.now) self.old self.new }
    {
        let end = write_line(&mut [], self.at, key, value);
        if end <= self.out.len() {
            write_line(self.out, self.at, key, value);
        }
        self.at = end;
    }

    /// Writes the line of `key` and a number.
    #[inline(always)]
    pub fn put_number_line<N: Integer>(&mut self, key: &[u8], n: N)
        ensures { PutBy (line_text key.now (N.text n)) self.old self.new }
    {
        let mut buffer = Buffer::new();
        self.put_line(key, buffer.format(n).as_bytes());
    }

    /// Writes the line of a mean.
    pub fn put_mean_line(&mut self, mean: Option<i64>)
        ensures { PutBy (line_text (codes "mean") (mean_text mean)) self.old self.new }
    {
        match mean {
            Some(z) => self.put_number_line(b"mean", z),
            None => self.put_line(b"mean", b"none"),
        }
    }
}
