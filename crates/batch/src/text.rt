// The totals of a batch as text.
ghost use Rattle.std.specs.Prelude.{◌≡◌, ◌^◌, ◌<◌, ◌≤◌, length, IfSome};
ghost use Rattle.std.specs.Int.Signed.{mag};
ghost use Rattle.registers.specs.Numbers.{code_of};
ghost use Rattle.report.specs.Printed.{Printed};
ghost use Rattle.report.specs.Writer.{PrintedBy, WrittenBy};
ghost use Rattle.batch.specs.Holds.{text_of_batch};
ghost use Rattle.batch.specs.Totals.{letters_text, mean_of, name_of};

use super::batch::Batch;
use refusals::Refusal;
use registers::{Kind, Register, mean_of};
use report::{Writer, print};

// The name of a kind; that of the peak where there is none, so that there is always a text. A batch that was read has a kind.
fn name(kind: Option<Kind>) -> &'static [u8]
    ensures { result.now ≡ name_of (code_of kind) }
{
    kind.unwrap_or(Kind::Peak).name()
}

// A line for each letter from 'A' on.
fn write_letters(letters: &[u32; 18], writer: &mut Writer<'_>)
    ensures short { length (letters_text 65 letters.now) ≤ 414 }
    ensures writes { WrittenBy (letters_text 65 letters.now) writer.old writer.new }
{
    for (letter, count) in (b'A'..=b'R').zip(letters) {
        writer.put_number_line(&[letter], *count);
    }
}

// All lines, each if it fits.
fn write_totals<R: Register>(batch: &Batch<R>, writer: &mut Writer<'_>)
    ensures { PrintedBy (text_of_batch R.figures batch.now) writer.old writer.new }
{
    // Read here, the counts are known to be numbers of 32 bits.
    let Batch {
        commands,
        kills,
        cards,
        ..
    } = *batch;
    writer.put_number_line(b"commands", commands);
    writer.put_number_line(b"kills", kills);
    writer.put_number_line(b"cards", cards);
    writer.put_line(b"register", name(batch.kind));
    writer.put_figures_line(b"figures", &batch.register);
    writer.put_mean_line(mean_of(batch.kind, &batch.register, commands));
    write_letters(&batch.letters, writer);
}

// Prints the totals of a batch into a lent buffer.
pub(crate) fn totals_text<R: Register>(batch: &Batch<R>, out: &mut [u8]) -> Result<usize, Refusal>
    ensures { Printed (text_of_batch R.figures batch.now) out.old result out.new }
{
    print(
        out,
        |writer: &mut Writer<'_>|
            ensures { PrintedBy (text_of_batch R.figures batch.entry.now) writer.old writer.new }
        {
            write_totals(batch, writer);
        },
    )
}
