// Numbers as journals write them: digits alone, with no zero in front.
ghost use Rattle.std.specs.Prelude.{◌≡◌};
ghost use Rattle.journal.specs.Numbers.{number_up_to, number_between};

// The number that `text` writes, if it is at most `limit`. Every number of a journal is read here.
#[tactic(auto, using(crate::proofs::Digits::at_start, crate::proofs::Digits::at_end, crate::proofs::Digits::next_digit))]
pub fn number_up_to(text: &[u8], limit: u32) -> Option<u32>
    ensures { result ≡ number_up_to limit text.now }
{
    if matches!(text, [] | [b'0', _, ..]) {
        return None;
    }
    let mut number: u32 = 0;
    // Tried with `try_fold`: the proof that it comes to the number didn't close. A loop has an invariant that says so.
    for b in text {
        let digit = char::from(*b).to_digit(10)?;
        // The number read so far is at most the limit, so one digit more fits 64 bits.
        let longer = 10 * u64::from(number) + u64::from(digit);
        if longer > u64::from(limit) {
            return None;
        }
        number = longer as u32;
    }
    Some(number)
}

// The same with a lower limit.
pub fn number_between(text: &[u8], low: u32, high: u32) -> Option<u32>
    ensures { result ≡ number_between low high text.now }
{
    number_up_to(text, high).filter(|number| *number >= low)
}
