// Names as they are shown. Any text may be the name of a letter, while a line of text and XML have no room
// for some characters.
ghost use Rattle.std.specs.Prelude.{◌≡◌, string_bytes, IfOk};
ghost use Rattle.trace_view.specs.Names.{is_unfit, shown_char, shown, columns_of, widest};

use crate::grid::Row;
use std::alloc::{AllocError, Global};
use unicode_width::UnicodeWidthStr;

/// The name with U+FFFD in place of each character that can't be shown.
pub fn shown(alloc: Global, name: &str) -> Result<String, AllocError>
    ensures { IfOk result (λ text. string_bytes text ≡ shown name.now) }
{
    name.chars().map(|c| shown_char(c)).collect(alloc)
}

fn shown_char(c: char) -> char
    ensures { result ≡ shown_char c }
{
    if is_unfit(c) { '\u{FFFD}' } else { c }
}

/// Whether it is a control character, or one that XML has not.
fn is_unfit(c: char) -> bool
    ensures { result ≡ is_unfit c }
{
    matches!(c, '\0'..='\u{1F}' | '\u{7F}'..='\u{9F}' | '\u{FFFE}' | '\u{FFFF}')
}

/// How many columns of a terminal a shown name takes.
pub fn columns_of(alloc: Global, name: &str) -> Result<usize, AllocError>
    ensures { IfOk result (λ columns. columns ≡ columns_of name.now) }
{
    Ok(shown(alloc, name)?.as_str().width())
}

/// The most columns that a name of the rows takes.
pub fn widest(alloc: Global, rows: &[Row]) -> Result<usize, AllocError>
    ensures { IfOk result (λ columns. columns ≡ widest rows.now) }
{
    let mut most = 0;
    for row in rows {
        most = columns_of(alloc, row.name())?.max(most);
    }
    Ok(most)
}
