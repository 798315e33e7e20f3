// A decimal number in a word.
ghost use Rattle.std.specs.Prelude.{ℕ, ◌<◌, ◌≤◌, MatchOption};
ghost use Rattle.command_words.specs.Words.{IsNumberIn};

use crate::table::Range;

/// The number of the range that the digits are.
pub fn decimal_number(digits: &[u8], range: Range) -> Option<u32>
    requires { range.digits ≤ 9 }
    ensures { MatchOption result ((n : ℕ) → ¬ (IsNumberIn range digits.now n)) (IsNumberIn range digits.now) }
{
    if digits.is_empty() || digits.len() > range.digits {
        return None;
    }
    let mut number = 0;
    for digit in digits {
        if !digit.is_ascii_digit() {
            return None;
        }
        number = 10 * number + (*digit - b'0') as u32;
    }
    if number < range.low || number > range.high {
        return None;
    }
    Some(number)
}
