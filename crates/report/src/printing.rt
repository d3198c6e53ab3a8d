// A whole text in a buffer that the caller lends.
ghost use Rattle.std.specs.Prelude.{ℕ, List};
ghost use Rattle.report.specs.Printed.{Printed};
ghost use Rattle.report.specs.Writer.{EachCall, PrintedBy};

use crate::writer::Writer;
use refusals::Refusal;

/// Prints the text that `write` writes in parts to the start of `out`, and gives its length. A buffer that is too short is
/// left as it was, and the answer says how long it should be.
pub fn print<F: Fn(&mut Writer<'_>)>(out: &mut [u8], write: F) -> Result<usize, Refusal>
    requires { F.IsAlwaysCallable write }
    ensures { (text : List ℕ) → EachCall (λ w w'. F.post write w tt w') (PrintedBy text) → Printed text out.old result out.new }
{
    let room = out.len();
    let mut writer = Writer::new(out, 0);
    writer.put_whole(write);
    let needed = writer.end();
    if needed > room {
        return Err(Refusal::BufferTooShort { needed });
    }
    Ok(needed)
}
