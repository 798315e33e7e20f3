// Slices of a certificate text as literals, hints and numbers of lines. They take no memory. What reads a
// literal or a hint is inlined, since a checker does little else.
ghost use Rattle.std.specs.Prelude.{◌≡◌, ℕ, Bool, ◌<◌, ◌≤◌, ◌∷◌, ◌++◌, List, length, decimal};
ghost use Rattle.cert_text.specs.Text.{greatest_u64};
ghost use Rattle.cert_text.specs.Reading.{EndsNumber, IsSigned, signed_text, AreLiterals, literals_in};
ghost use Rattle.cert_text.specs.Reading.{AreHints, hints_in, AreNumbers, numbers_in};

use cnf_base::{Hint, Letter, Literal};
use std::marker::Model;

/// The number at the front, up to a space or the end, and its length.
#[inline(always)]
fn number(digits: &[u8]) -> (u64, usize)
    ensures within { result.1 ≤ length digits.now }
    ensures value { (n : ℕ) (more : List ℕ) → n ≤ greatest_u64 → digits.now ≡ decimal n ++ more
        → EndsNumber more → (result.0 ≡ n) × (result.1 ≡ length (decimal n)) }
{
    let mut value: u64 = 0;
    let mut len: usize = 0;
    while len < digits.len() && digits[len] != b' ' {
        let digit = digits[len].wrapping_sub(b'0');
        value = value.wrapping_mul(10).wrapping_add(digit as u64);
        len += 1;
    }
    (value, len)
}

/// Whether a minus sign is at the front, the number behind it, and what is left behind the number's space.
#[inline(always)]
fn signed(bytes: &[u8]) -> (bool, u64, &[u8])
    requires { IsSigned bytes.now }
    ensures { (b : Bool) (n : ℕ) (more : List ℕ) → n ≤ greatest_u64 → bytes.now ≡ signed_text b n more
        → (result.0 ≡ b) × (result.1 ≡ n) × (result.2.now ≡ more) }
{
    if bytes[0] == b'-' {
        let digits = &bytes[1..];
        let (value, len) = number(digits);
        return (true, value, &digits[len + 1..]);
    }
    let (value, len) = number(bytes);
    (false, value, &bytes[len + 1..])
}

#[inline(always)]
fn first_literal(bytes: &[u8]) -> (Literal, &[u8])
    requires literals { AreLiterals bytes.now }
    requires some { 0 < length bytes.now }
    ensures rest { AreLiterals result.1.now }
    ensures value { literals_in bytes.now ≡ result.0 ∷ literals_in result.1.now }
{
    let (negated, value, rest) = signed(bytes);
    let literal = Literal {
        letter: Letter(value as u32),
        negated,
    };
    (literal, rest)
}

#[inline(always)]
fn first_hint(bytes: &[u8]) -> (Hint, &[u8])
    requires hints { AreHints bytes.now }
    requires some { 0 < length bytes.now }
    ensures rest { AreHints result.1.now }
    ensures value { hints_in bytes.now ≡ result.0 ∷ hints_in result.1.now }
{
    let (negated, value, rest) = signed(bytes);
    if negated {
        (Hint::Line(value), rest)
    } else {
        (Hint::Clause(value), rest)
    }
}

fn first_number(bytes: &[u8]) -> (u64, &[u8])
    requires numbers { AreNumbers bytes.now }
    requires some { 0 < length bytes.now }
    ensures rest { AreNumbers result.1.now }
    ensures value { numbers_in bytes.now ≡ result.0 ∷ numbers_in result.1.now }
{
    let digits = &bytes[1..];
    let (value, len) = number(digits);
    (value, &digits[len..])
}

/// The literals of a line in their order, repeats included: an iterator over a slice of the text, without
/// memory. Letters are from 1 to 16,777,216.
#[derive(Drop)]
pub struct Literals<'t> {
    rest: &'t [u8],
}

impl<'t> Model for Literals<'t> {
    ghost use Rattle.std.specs.Prelude.{List};
    ghost use Rattle.cnf_base.specs.declared.literal.Literal.{Literal};
    ghost use Rattle.cert_text.specs.Reading.{AreLiterals, literals_in};

    ghost Value = { List Literal };

    ghost view = { λ a. literals_in a.rest.now };

    ghost invariant = { λ a. AreLiterals a.rest.now };
}

impl<'t> Literals<'t> {
    /// Over a slice that spells literals.
    pub(crate) fn new(rest: &'t [u8]) -> Literals<'t>
        requires { AreLiterals rest.now }
        ensures { result ≡ literals_in rest.now }
    {
        Literals { rest }
    }

    /// The same literals once more, from here on.
    pub fn again(&self) -> Literals<'t>
        ensures { result ≡ self.now }
    {
        Literals { rest: self.rest }
    }
}

impl<'t> Iterator for Literals<'t> {
    ghost use Rattle.std.specs.Iterator.{YieldsFirst, item_count};

    type Item = Literal;

    ghost next_gives = { YieldsFirst (λ rest. rest) };

    ghost remaining = { item_count (λ rest. rest) };

    #[inline(always)]
    fn next(&mut self) -> Option<Literal> {
        if self.rest.is_empty() {
            return None;
        }
        let (literal, rest) = first_literal(self.rest);
        self.rest = rest;
        Some(literal)
    }
}

/// The hints of a line in their order: an iterator over a slice of the text, without memory. Clauses and
/// lines are numbered from 1; a number may be greater than any of a clause or line.
#[derive(Drop)]
pub struct Hints<'t> {
    rest: &'t [u8],
}

impl<'t> Model for Hints<'t> {
    ghost use Rattle.std.specs.Prelude.{List};
    ghost use Rattle.cnf_base.specs.declared.literal.Hint.{Hint};
    ghost use Rattle.cert_text.specs.Reading.{AreHints, hints_in};

    ghost Value = { List Hint };

    ghost view = { λ a. hints_in a.rest.now };

    ghost invariant = { λ a. AreHints a.rest.now };
}

impl<'t> Hints<'t> {
    /// Over a slice that spells hints.
    pub(crate) fn new(rest: &'t [u8]) -> Hints<'t>
        requires { AreHints rest.now }
        ensures { result ≡ hints_in rest.now }
    {
        Hints { rest }
    }

    /// The same hints once more, from here on.
    pub fn again(&self) -> Hints<'t>
        ensures { result ≡ self.now }
    {
        Hints { rest: self.rest }
    }
}

impl<'t> Iterator for Hints<'t> {
    ghost use Rattle.std.specs.Iterator.{YieldsFirst, item_count};

    type Item = Hint;

    ghost next_gives = { YieldsFirst (λ rest. rest) };

    ghost remaining = { item_count (λ rest. rest) };

    #[inline(always)]
    fn next(&mut self) -> Option<Hint> {
        if self.rest.is_empty() {
            return None;
        }
        let (hint, rest) = first_hint(self.rest);
        self.rest = rest;
        Some(hint)
    }
}

/// Numbers of lines, those of a delete or the targets, in their order: an iterator over a slice of the text,
/// without memory. They are from 1, and a number may be greater than any of a line.
#[derive(Drop)]
pub struct LineNumbers<'t> {
    rest: &'t [u8],
}

impl<'t> Model for LineNumbers<'t> {
    ghost use Rattle.std.specs.Prelude.{List, ℕ};
    ghost use Rattle.cert_text.specs.Reading.{AreNumbers, numbers_in};

    ghost Value = { List ℕ };

    ghost view = { λ a. numbers_in a.rest.now };

    ghost invariant = { λ a. AreNumbers a.rest.now };
}

impl<'t> LineNumbers<'t> {
    /// Over a slice that spells numbers, each behind a space.
    pub(crate) fn new(rest: &'t [u8]) -> LineNumbers<'t>
        requires { AreNumbers rest.now }
        ensures { result ≡ numbers_in rest.now }
    {
        LineNumbers { rest }
    }

    /// The same numbers once more, from here on.
    pub fn again(&self) -> LineNumbers<'t>
        ensures { result ≡ self.now }
    {
        LineNumbers { rest: self.rest }
    }
}

impl<'t> Iterator for LineNumbers<'t> {
    ghost use Rattle.std.specs.Iterator.{YieldsFirst, item_count};

    type Item = u64;

    ghost next_gives = { YieldsFirst (λ rest. rest) };

    ghost remaining = { item_count (λ rest. rest) };

    fn next(&mut self) -> Option<u64> {
        if self.rest.is_empty() {
            return None;
        }
        let (number, rest) = first_number(self.rest);
        self.rest = rest;
        Some(number)
    }
}
