// The line of a register: a key, `=`, the register's figures with commas between them, and a line feed.
ghost use Rattle.std.specs.Prelude.{◌≡◌, ◌<◌};
ghost use Rattle.std.specs.Fmt.{signed_decimal};
ghost use Rattle.report.specs.Figures.{figure_after_comma, figures_text};
ghost use Rattle.report.specs.Lines.{line_text};
ghost use Rattle.report.specs.Placed.{Writes};
ghost use Rattle.report.specs.Writer.{PutBy};

use crate::writer::{Writer, put_at};
use itoa::Buffer;
use registers::Register;

// Writes the figure z that stands at a place, after a comma where the place is not the first.
#[inline(always)]
fn write_figure(out: &mut [u8], at: usize, place: usize, z: i64) -> usize
    ensures first { place ≡ 0 → Writes (signed_decimal z) out.old at out.new result }
    ensures later { 0 < place → Writes (figure_after_comma z) out.old at out.new result }
{
    let mut buffer = Buffer::new();
    let digits = buffer.format(z).as_bytes();
    if place == 0 {
        return put_at(out, at, digits);
    }
    let after_comma = put_at(out, at, b",");
    put_at(out, after_comma, digits)
}

// Writes the figures of a register one after the other, each if it fits.
#[inline(always)]
fn write_figures<R: Register>(out: &mut [u8], at: usize, register: &R) -> usize
    ensures { Writes (figures_text (R.figures register.now)) out.old at out.new result }
{
    let mut next = at;
    // A register is asked for its figures by their places: it lends no slice of them.
    for place in 0..register.count() {
        if let Some(z) = register.figure(place) {
            next = write_figure(out, next, place, z);
        }
    }
    next
}

// Writes the four parts of the line, each if it fits.
#[inline(always)]
fn write_figures_line<R: Register>(out: &mut [u8], at: usize, key: &[u8], register: &R) -> usize
    ensures { Writes (line_text key.now (figures_text (R.figures register.now))) out.old at out.new result }
{
    let after_key = put_at(out, at, key);
    let after_sign = put_at(out, after_key, b"=");
    let after_figures = write_figures(out, after_sign, register);
    put_at(out, after_figures, b"\n")
}

impl Writer<'_> {
    /// Writes the line of `key` and the figures of `register`.
    #[inline(always)]
    pub fn put_figures_line<R: Register>(&mut self, key: &[u8], register: &R)
        ensures { PutBy (line_text key.now (figures_text (R.figures register.now))) self.old self.new }
    {
        let end = write_figures_line(&mut [], self.at, key, register);
        if end <= self.out.len() {
            write_figures_line(self.out, self.at, key, register);
        }
        self.at = end;
    }
}
