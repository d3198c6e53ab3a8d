// The print of a fault: what a caller shows of a refusal.
ghost use Rattle.std.specs.Prelude.{◌≡◌, codes};
ghost use Rattle.refusals.specs.declared.Refusal.TheVariants.{StepDenied};
ghost use Rattle.report.specs.Fault.{text_of_fault};
ghost use Rattle.report.specs.Printed.{Printed};
ghost use Rattle.report.specs.Writer.{PrintedBy};

use crate::printing::print;
use crate::writer::Writer;
use refusals::Refusal;

/// Prints the number of a refusal and the journal line that it speaks of, 0 where it speaks of none.
pub fn fault_text(refusal: Refusal, out: &mut [u8]) -> Result<usize, Refusal>
    ensures { Printed (text_of_fault refusal) out.old result out.new }
{
    print(
        out,
        |writer: &mut Writer<'_>|
            ensures { PrintedBy (text_of_fault refusal) writer.old writer.new }
        {
            writer.put_number_line(b"fault", refusal.number());
            writer.put_number_line(b"line", refusal.line());
        },
    )
}

/// The print of a fault at the ninth line of a journal, where the step is denied: an example of the form.
pub fn fault_example() -> &'static [u8]
    ensures bytes { result.now ≡ codes "fault=16\nline=9\n" }
    ensures worked { text_of_fault (StepDenied 9) ≡ codes "fault=16\nline=9\n" }
{
    b"fault=16\nline=9\n"
}
