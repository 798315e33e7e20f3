// Hints by numbers of 32 bits: twice the number of the clause or the line, and one more where it is a line.
ghost use Rattle.std.specs.Prelude.{◌≡◌, ◌<◌, MatchOption};
ghost use Rattle.cdcl_trail.specs.Entries.{hint_of, IsShort};

use cnf_base::Hint;

/// The greatest number of a clause or a line that fits.
const MAX_NUMBER: u64 = 2147483646;

/// The number of a hint, if it fits.
#[inline(always)]
pub fn encode_hint(hint: Hint) -> Option<u32>
    ensures { MatchOption result (¬ IsShort hint)
        (λ number. (hint_of number ≡ hint) × (number < 4294967295) × IsShort hint) }
{
    match hint {
        Hint::Clause(number) => {
            if number > MAX_NUMBER {
                return None;
            }
            Some(2 * number as u32)
        }
        Hint::Line(number) => {
            if number > MAX_NUMBER {
                return None;
            }
            Some(2 * number as u32 + 1)
        }
    }
}

/// The hint of a number.
pub fn decode_hint(number: u32) -> Hint
    ensures { result ≡ hint_of number }
{
    let half = (number / 2) as u64;
    if number % 2 == 1 {
        return Hint::Line(half);
    }
    Hint::Clause(half)
}
