// A writer of text: a buffer that the caller lends, and the place where the next piece goes.
ghost use Rattle.std.specs.Prelude.{◌≡◌, ◌+◌, ◌^◌, ◌<◌, ◌≤◌, ℕ, List, length, nat_le};
ghost use Rattle.std.proofs.Math.Seq.{paste};
ghost use Rattle.report.specs.Placed.{Puts};

use itoa::{Buffer, Integer};

// Whether n bytes from the place `at` on lie within the first `len`.
#[inline(always)]
fn fits(len: usize, at: usize, n: usize) -> bool
    ensures { result ≡ nat_le (at + n) len }
{
    n <= len && at <= len - n
}

// Writes `piece` over the bytes from the place `at` on, where it fits.
// No method of the writer: this promise is of the bytes alone, and a method's would also say what becomes of the writer.
#[inline(always)]
fn overwrite(out: &mut [u8], at: usize, piece: &[u8])
    requires { at + length piece.now ≤ length out.old }
    ensures { out.new ≡ paste out.old at piece.now (length piece.now) }
{
    out[at..at + piece.len()].copy_from_slice(piece);
}

// Writes `piece` into `out` from the place `at` on, where it fits, and gives the place after it.
// A place by itself, which LLVM keeps in a register: a writer's place stands in memory, and the pieces of a line, each of which
// begins where the one before it ends, would wait for it.
#[inline(always)]
pub(crate) fn put_at(out: &mut [u8], at: usize, piece: &[u8]) -> usize
    ensures { Puts piece.now out.old at out.new result }
{
    if fits(out.len(), at, piece.len()) {
        overwrite(out, at, piece);
    }
    at.saturating_add(piece.len())
}

/// A lent buffer, and the place after what was written. Each method writes its whole text or nothing, and the place goes
/// on by the length of the text either way: the same calls on an empty buffer tell how long a text is.
#[derive(Drop)]
pub struct Writer<'b> {
    pub(crate) out: &'b mut [u8],
    pub(crate) at: usize,
    ghost within: { at < 2 ^ 64 },
}

impl<'b> Writer<'b> {
    ghost use Rattle.report.specs.Writer.{EachCall, PutBy, WrittenBy};

    /// Writes into `out` from the place `at` on.
    pub fn new(out: &'b mut [u8], at: usize) -> Writer<'b>
        ensures same { result.out.ghost_name ≡ out.entry.ghost_name }
        ensures bytes { result.out.now ≡ out.old }
        ensures place { result.at ≡ at }
    {
        Writer { out, at }
    }

    /// The place after what was written.
    pub fn end(&self) -> usize
        ensures { result ≡ self.now.at }
    {
        self.at
    }

    /// Writes `piece`.
    #[inline(always)]
    pub fn put(&mut self, piece: &[u8])
        ensures { PutBy piece.now self.old self.new }
    {
        self.at = put_at(self.out, self.at, piece);
    }

    /// Writes the decimal digits of a number, after a minus sign where it is below 0.
    #[inline(always)]
    pub fn put_number<N: Integer>(&mut self, n: N)
        ensures { PutBy (N.text n) self.old self.new }
    {
        let mut buffer = Buffer::new();
        self.put(buffer.format(n).as_bytes());
    }

    // Writes the text that `write` writes in parts, whole or not at all: it is measured first, on an empty buffer. So there is
    // a call of `write`, and what each of its calls promises is so.
    #[inline(always)]
    pub(crate) fn put_whole<F: Fn(&mut Writer<'_>)>(&mut self, write: F)
        requires { F.IsAlwaysCallable write }
        ensures calls { (w : _) × (w' : _) × F.post write w tt w' }
        ensures puts { (text : List ℕ) → EachCall (λ w w'. F.post write w tt w') (WrittenBy text) → PutBy text self.old self.new }
    {
        let mut measure = Writer::new(&mut [], self.at);
        write(&mut measure);
        if measure.at <= self.out.len() {
            write(self);
        } else {
            self.at = measure.at;
        }
    }
}
