// The lines of a report. A head stands at the margin, what is said under it behind four blanks, and what is
// said of that behind eight. The page has marks of HTML in their place: `requirement_page/src/marks.rt`.
ghost use Rattle.std.specs.Prelude.{◌≡◌, ◌≤◌, ◌==◌, ◌∷◌, ◌++◌, ℕ, List, true, IfOk, OnOk};
ghost use Rattle.requirement_report.specs.Lines.{worded, of_all, inner, deeper, inner_if, deeper_if, head};
ghost use Rattle.requirement_report.specs.Lines.{indented, first_lines, lines_left, newline_count, lines_in};

use itoa::Buffer;
use std::alloc::{AllocError, Global};

/// Adds the words and the number, in decimal.
pub fn put_worded(words: &[u8], number: u128, out: &mut Vec<u8>) -> Result<(), AllocError>
    ensures { OnOk result (out.new.items ≡ out.old.items ++ worded words.now number) }
{
    let mut buffer = Buffer::new();
    out.extend_from_slice(words)?;
    out.extend_from_slice(buffer.format(number).as_bytes())
}

/// Adds how many of how many, as in `3 of 5`.
pub fn put_of_all(good: u128, all: u128, out: &mut Vec<u8>) -> Result<(), AllocError>
    ensures { OnOk result (out.new.items ≡ out.old.items ++ of_all good all) }
{
    put_worded(b"", good, out)?;
    put_worded(b" of ", all, out)
}

/// Adds the text as a line behind four blanks.
pub fn put_inner(text: &[u8], out: &mut Vec<u8>) -> Result<(), AllocError>
    ensures { OnOk result (out.new.items ≡ out.old.items ++ inner text.now) }
{
    out.extend_from_slice(b"    ")?;
    out.extend_from_slice(text)?;
    out.extend_from_slice(b"\n")
}

/// Adds the text as a line behind eight blanks.
pub fn put_deeper(text: &[u8], out: &mut Vec<u8>) -> Result<(), AllocError>
    ensures { OnOk result (out.new.items ≡ out.old.items ++ deeper text.now) }
{
    out.extend_from_slice(b"        ")?;
    out.extend_from_slice(text)?;
    out.extend_from_slice(b"\n")
}

/// Adds the text as a line behind four blanks where it is not empty.
pub fn put_inner_if(text: &[u8], out: &mut Vec<u8>) -> Result<(), AllocError>
    ensures { OnOk result (out.new.items ≡ out.old.items ++ inner_if text.now) }
{
    if text.is_empty() {
        return Ok(());
    }
    put_inner(text, out)
}

/// Adds the text as a line behind eight blanks where it is not empty.
pub fn put_deeper_if(text: &[u8], out: &mut Vec<u8>) -> Result<(), AllocError>
    ensures { OnOk result (out.new.items ≡ out.old.items ++ deeper_if text.now) }
{
    if text.is_empty() {
        return Ok(());
    }
    put_deeper(text, out)
}

/// Adds the head of a block: a word that says what was found, and what it is about.
pub fn put_head(word: &[u8], subject: &[u8], out: &mut Vec<u8>) -> Result<(), AllocError>
    ensures { OnOk result (out.new.items ≡ out.old.items ++ head word.now subject.now) }
{
    out.extend_from_slice(word)?;
    out.extend_from_slice(b": ")?;
    out.extend_from_slice(subject)?;
    out.extend_from_slice(b"\n")
}

/// Adds lines that are made elsewhere, as those of a picture, each behind four blanks. An empty one stays
/// empty.
pub fn put_indented(text: &[u8], out: &mut Vec<u8>) -> Result<(), AllocError>
    ensures { OnOk result (out.new.items ≡ out.old.items ++ indented true text.now) }
{
    let mut begins = true;
    for byte in text {
        put_indented_byte(*byte, begins, out)?;
        begins = *byte == b'\n';
    }
    Ok(())
}

/// Adds a byte of such lines, behind four blanks where a line begins with it.
fn put_indented_byte(byte: u8, begins: bool, out: &mut Vec<u8>) -> Result<(), AllocError>
    ensures { OnOk result ((rest : List ℕ)
        → out.new.items ++ indented (byte == 10) rest ≡ out.old.items ++ indented begins (byte ∷ rest)) }
{
    if begins && byte != b'\n' {
        out.extend_from_slice(b"    ")?;
    }
    out.push(byte)?;
    Ok(())
}

/// The first lines of a text, each with the newline that ends it: this many, or all where it has fewer.
pub fn first_lines(alloc: Global, count: usize, text: &[u8]) -> Result<Vec<u8>, AllocError>
    ensures { IfOk result (λ lines. lines.items ≡ first_lines count text.now) }
{
    let mut lines = Vec::new(alloc);
    let mut left = count;
    for byte in text {
        if left == 0 {
            return Ok(lines);
        }
        lines.push(*byte)?;
        left = lines_left(left, *byte);
    }
    Ok(lines)
}

/// How many more lines are wanted behind this byte.
fn lines_left(count: usize, byte: u8) -> usize
    ensures { result ≡ lines_left count byte }
{
    if byte == b'\n' {
        count.saturating_sub(1)
    } else {
        count
    }
}

/// How many lines it has. Each ends with a newline.
pub fn lines_in(text: &[u8]) -> usize
    ensures { result ≡ lines_in text.now }
{
    let mut count = 0;
    for byte in text {
        count += newline_count(*byte);
    }
    count
}

/// 1 for a newline, and 0 for each other byte.
fn newline_count(byte: u8) -> usize
    ensures count { result ≡ newline_count byte }
    ensures one { result ≤ 1 }
{
    if byte == b'\n' { 1 } else { 0 }
}
