// Rows: the bytes up to a line feed.
ghost use Rattle.std.specs.Prelude.{◌≡◌, None, MatchOption};
ghost use Rattle.std.specs.Option.{option_map};
ghost use Rattle.journal.specs.Outcomes.{Stands, value_at};
ghost use Rattle.journal.specs.Rows.{rows_of, rest_without_feed, FirstRow, after_front};

use super::keys::Key;

// How many bytes stand before the first line feed, if there is one.
pub(crate) fn row_length(bytes: &[u8]) -> Option<usize>
    ensures { MatchOption result (rows_of bytes.now ≡ rest_without_feed bytes.now) (λ n. FirstRow bytes.now n) }
{
    bytes.iter().position(|b| *b == b'\n')
}

// What follows `front` in `text`, if it begins with it.
pub(crate) fn after<'a>(text: &'a [u8], front: &[u8]) -> Option<&'a [u8]>
    ensures { option_map (λ x. x.now) result ≡ after_front front.now text.now }
{
    text.strip_prefix(front)
}

// The value of the first row, if the row stands under the key.
pub(crate) fn row_value<'a>(bytes: &'a [u8], key: Key) -> Option<&'a [u8]>
    ensures { MatchOption result (value_at key (rows_of bytes.now) ≡ None) (λ value. Stands key bytes.now value.now) }
{
    let length = row_length(bytes)?;
    after(&bytes[..length], key.front())
}
