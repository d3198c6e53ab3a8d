// From the bytes of a journal to the text that is shown of it.
ghost use Rattle.std.specs.Prelude.{ℕ, List};
ghost use Rattle.registers.specs.Numbers.{code_of};
ghost use Rattle.batch.specs.Reading.{told_by};
ghost use Rattle.batch.specs.Showing.{Names, Shows};
ghost use Rattle.batch.specs.Totals.{text_of, text_with};

use super::reading::read_batch;
use super::text::totals_text;
use refusals::Refusal;
use registers::{Classes, Kind, Peak, Register, Sum};
use report::{Shown, show_fault};

// With the moves in a register of the caller's choice.
fn show_with<R: Register>(journal: &[u8], out: &mut [u8]) -> Result<Shown, Refusal>
    ensures { Shows (text_with R.start R.rule) (told_by journal.now) out.old result out.new }
{
    match read_batch::<R>(journal) {
        Ok(batch) => totals_text(&batch, out).map(Shown::Text),
        Err(refusal) => show_fault(refusal, out),
    }
}

// The kind of register that a journal names, if it names one.
fn kind_of(journal: &[u8]) -> Option<Kind>
    ensures { Names (told_by journal.now) (code_of result) }
{
    read_batch::<Sum>(journal).ok()?.kind
}

// Prints what both cards must show when the journal's batch is finished, or the fault for which it is refused.
pub fn show(journal: &[u8], out: &mut [u8]) -> Result<Shown, Refusal>
    ensures { Shows text_of (told_by journal.now) out.old result out.new }
{
    // A match: each case takes registers of another type.
    match kind_of(journal) {
        Some(Kind::Sum) => show_with::<Sum>(journal, out),
        Some(Kind::Classes) => show_with::<Classes>(journal, out),
        // A journal that names no kind is refused, and of a refusal each register shows the same.
        Some(Kind::Peak) | None => show_with::<Peak>(journal, out),
    }
}
