// The library for programs in C: a journal goes in, and its report or its fault print comes out.
#![tactic(auto)]

ghost use Rattle.hub_c.specs.Shown.{WritesShown};
ghost use Rattle.showing.specs.Showing.{text_shown};

use refusals::Refusal;
use showing::show;

/// Writes what is shown of a journal to the start of `out`, and answers how long that text is.
/// Where `out` is shorter than the answer, nothing was written.
#[unsafe(no_mangle)]
pub extern "C" fn mellfryd_show(journal: &[u8], out: &mut [u8]) -> usize
    ensures { WritesShown (text_shown journal.now) out.old result out.new }
{
    match show(journal, out) {
        Ok(shown) => shown.length(),
        Err(Refusal::BufferTooShort { needed }) => needed,
        // The C interface has a length for its only answer; `show` answers no other refusal.
        Err(_) => 0,
    }
}
