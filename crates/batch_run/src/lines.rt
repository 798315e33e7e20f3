// The formula lines of a text, one after another. A line ends at a newline or with the text, and one of white
// space alone is passed over.
ghost use Rattle.std.specs.Prelude.{◌≡◌, ◌+◌, ◌^◌, ◌<◌, ◌≤◌, [], ◌∷◌, length, MatchOption, OnSome};
ghost use Rattle.batch_run.specs.Lines.{IsFrontLine, is_blank};
ghost use Rattle.batch_run.specs.Grouping.{Passes, end_of, line_of};

use memchr::memchr;

/// What is left of a text behind some of its lines.
#[derive(Drop)]
pub struct Rest<'t> {
    pub text: &'t [u8],
    /// The number of the first line that is left, counted from 1.
    pub number: u32,
}

/// A line that is not blank.
#[derive(Clone, Copy)]
pub struct Line<'t> {
    pub number: u32,
    pub text: &'t [u8],
}

impl<'t> Rest<'t> {
    /// The next formula line. Where there is none, nothing is left.
    pub fn next_formula(&mut self) -> Option<Line<'t>>
        requires { end_of self.old < 2 ^ 32 }
        ensures found { MatchOption result (Passes self.old self.new [] × (self.new.text.now ≡ []))
            (λ line. Passes self.old self.new (line_of line ∷ [])) }
        ensures room { end_of self.new ≤ end_of self.old }
        ensures moves { OnSome result (self.old.number < self.new.number) }
        ensures order { self.old.number ≤ self.new.number }
    {
        let mut number = self.number;
        'lines: while let Some(text) = self.next_line() {
            if !is_blank(text) {
                return Some(Line { number, text });
            }
            number = self.number;
        }
        None
    }

    /// The next line, without its newline.
    fn next_line(&mut self) -> Option<&'t [u8]>
        requires { end_of self.old < 2 ^ 32 }
        ensures front { MatchOption result ((self.old.text.now ≡ []) × (self.new ≡ self.old))
            (λ line. IsFrontLine self.old.text.now line.now self.new.text.now) }
        ensures number { OnSome result (self.new.number ≡ self.old.number + 1) }
        ensures shorter { OnSome result (length self.new.text.now < length self.old.text.now) }
    {
        let text = self.text;
        if text.is_empty() {
            return None;
        }
        self.number += 1;
        match memchr(b'\n', text) {
            Some(end) => {
                self.text = &text[end + 1..];
                Some(&text[..end])
            }
            None => {
                self.text = &text[text.len()..];
                Some(text)
            }
        }
    }
}

/// Whether the line has white space alone.
fn is_blank(line: &[u8]) -> bool
    ensures { result ≡ is_blank line.now }
{
    line.iter()
        .all(|byte| matches!(*byte, b' ' | b'\t' | b'\n' | b'\r'))
}
