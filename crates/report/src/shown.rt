// What a program shows of a journal.
ghost use Rattle.std.specs.Prelude.{◌≡◌};
ghost use Rattle.report.specs.Fault.{text_of_fault};
ghost use Rattle.report.specs.Shown.{Shows, length_in};

use crate::fault::fault_text;
use refusals::Refusal;

/// Which text was written, the text that was asked for or the print of a fault, and how many bytes it has.
// The shape is that of a Result, but a fault that was printed is no failure of the call, and `?` must not hand it on as one.
#[derive(Clone, Copy, Debug, PartialEq, Eq)]
pub enum Shown {
    Text(usize),
    Fault(usize),
}

impl Shown {
    /// How many bytes were written.
    pub fn length(self) -> usize
        ensures { result ≡ length_in self }
    {
        match self {
            Shown::Text(length) | Shown::Fault(length) => length,
        }
    }
}

/// Shows the fault for which a journal is refused.
pub fn show_fault(refusal: Refusal, out: &mut [u8]) -> Result<Shown, Refusal>
    ensures { Shows (text_of_fault refusal) 2 out.old result out.new }
{
    fault_text(refusal, out).map(Shown::Fault)
}
