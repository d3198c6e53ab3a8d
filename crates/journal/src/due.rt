// Taking the line that is due. These are functions over the place, and not methods of the reader, since the guard holds
// the reader's place while a line is taken.
ghost use Rattle.std.specs.Prelude.{◌≡◌, ◌+◌, ◌≤◌, ◌∷◌, ◌++◌, length, drop, None, IfOk, MatchOption, MatchResult};
ghost use Rattle.journal.specs.Keys.{front_of};
ghost use Rattle.journal.specs.Lines.{value_of, Limited, Sound};
ghost use Rattle.journal.specs.Outcomes.{Passed, line_outcome, result_outcome, value_at};
ghost use Rattle.journal.specs.Rows.{rows_of};

use super::keys::Key;
use super::kinds::Accepted;
use super::lines::{Line, Part};
use super::place::{Place, Restore};
use super::rows::row_value;
use super::values::read_value;
use refusals::Refusal;

// The value of the line at the place, if it stands under the key; the place is then the start of the next line.
fn take_value<'a>(text: &'a [u8], place: &mut Place, key: Key) -> Option<Part<'a>>
    requires inside { place.old.at ≤ length text.now }
    requires short { length text.now ≤ 65536 }
    requires counted { place.old.line ≤ place.old.at + 1 }
    ensures { MatchOption result ((value_at key (rows_of (drop place.old.at text.now)) ≡ None) × (place.new ≡ place.old)) (λ value. Passed text.now key place.old place.new value) }
{
    let at = place.at;
    let value = row_value(&text[at..], key)?;
    let value_at = at + key.front().len();
    place.at = value_at + value.len() + 1;
    place.line += 1;
    Some(Part {
        text: value,
        at: value_at,
    })
}

// The line that is due at the place, or the reason for refusing it; a refusal leaves the place where it was.
pub(crate) fn take_line<'a>(
    text: &'a [u8],
    place: &mut Place,
    key: Key,
    accepts: Accepted,
) -> Result<Line<'a>, Refusal>
    requires inside { place.old.at ≤ length text.now }
    requires short { length text.now ≤ 65536 }
    requires counted { place.old.line ≤ place.old.at + 1 }
    ensures says { result_outcome result ≡ line_outcome accepts key place.old.line (rows_of (drop place.old.at text.now)) }
    ensures moves { MatchResult result (λ line. Passed text.now key place.old place.new (value_of line) × Sound line) (λ _. place.new ≡ place.old) }
    ensures limits { IfOk result Limited }
{
    let saved = *place;
    let guard = Restore { place, saved };
    let value = take_value(text, guard.place, key).ok_or(Refusal::LineNotDue { line: saved.line })?;
    let line = read_value(accepts, key, value).ok_or(Refusal::ValueNotAllowed {
        line: saved.line,
    })?;
    guard.accept();
    Ok(line)
}
