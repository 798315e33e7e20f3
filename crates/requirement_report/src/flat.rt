// A text on one line. Names, sentences and formulas stand in a document as somebody wrote them, perhaps on
// several lines. A report shows each flat, so that no part of it is taken for a line of the report.
ghost use Rattle.std.specs.Prelude.{◌≡◌, ◌∷◌, ◌++◌, ℕ, List, true, false, string_bytes, IfOk, OnOk};
ghost use Rattle.trace_view.specs.Names.{is_unfit, shown_char};
ghost use Rattle.requirement_report.specs.Flat.{is_white, plain_char, plain, squeezed, flat};

use std::alloc::{AllocError, Global};

/// Adds the text flat, that is on one line: one blank for each stretch of white space, and none at both ends.
pub fn put_flat(alloc: Global, text: &str, out: &mut Vec<u8>) -> Result<(), AllocError>
    ensures { OnOk result (out.new.items ≡ out.old.items ++ flat text.now) }
{
    let plain = plain(alloc, text)?;
    put_squeezed(plain.as_bytes(), out)
}

/// The text with a blank for each tab and line end, and U+FFFD for each character that no line can show.
/// Blanks that stand together are left so: a plain text has as many characters as before.
pub fn plain(alloc: Global, text: &str) -> Result<String, AllocError>
    ensures { IfOk result (λ made. string_bytes made ≡ plain text.now) }
{
    text.chars().map(|c| plain_char(c)).collect(alloc)
}

/// What stands for a character in a plain text.
fn plain_char(c: char) -> char
    ensures { result ≡ plain_char c }
{
    if is_white(c) {
        return ' ';
    }
    if is_unfit(c) { '\u{FFFD}' } else { c }
}

/// Whether it is white space other than the blank.
fn is_white(c: char) -> bool
    ensures { result ≡ is_white c }
{
    c == '\t' || c == '\n' || c == '\r'
}

/// Whether it is a control character, or one that XML has not.
fn is_unfit(c: char) -> bool
    ensures { result ≡ is_unfit c }
{
    matches!(c, '\0'..='\u{1F}' | '\u{7F}'..='\u{9F}' | '\u{FFFE}' | '\u{FFFF}')
}

/// What stands before a byte: whether anything does, and whether there are blanks behind that.
#[derive(Clone, Copy)]
struct Before {
    started: bool,
    gap: bool,
}

/// Adds the bytes with one blank for each stretch of blanks, and none at both ends.
fn put_squeezed(bytes: &[u8], out: &mut Vec<u8>) -> Result<(), AllocError>
    ensures { OnOk result (out.new.items ≡ out.old.items ++ squeezed false false bytes.now) }
{
    let mut before = Before {
        started: false,
        gap: false,
    };
    for byte in bytes {
        before = put_byte(*byte, before, out)?;
    }
    Ok(())
}

/// Adds a byte, and says what stands before the next one. A blank waits until something stands behind it, so
/// none ends up last.
fn put_byte(byte: u8, before: Before, out: &mut Vec<u8>) -> Result<Before, AllocError>
    ensures { IfOk result (λ next. (rest : List ℕ)
        → out.new.items ++ squeezed next.started next.gap rest
        ≡ out.old.items ++ squeezed before.started before.gap (byte ∷ rest)) }
{
    if byte == b' ' {
        return Ok(Before {
            started: before.started,
            gap: before.started,
        });
    }
    if before.gap {
        out.push(b' ')?;
    }
    out.push(byte)?;
    Ok(Before {
        started: true,
        gap: false,
    })
}
