// Pieces of the page: what somebody wrote, paragraphs, links to items, and words in the colour of their sort.
// The text has lines in their place: `requirement_report/src/lines.rt`. All that somebody wrote is escaped
// before it is added, so that it opens no mark of HTML and closes none.
ghost use Rattle.std.specs.Prelude.{◌≡◌, ◌+◌, ◌++◌, length, OnOk};
ghost use Rattle.trace_view.specs.Diagram.{escaped_byte, escaped};
ghost use Rattle.requirement_document.specs.Values.{document_in};
ghost use Rattle.requirement_report.specs.Flat.{flat};
ghost use Rattle.requirement_page.specs.Marks.{turned, said, code, paragraph, paragraph_if};
ghost use Rattle.requirement_page.specs.Marks.{link, item_link, behaviour_link};
ghost use Rattle.requirement_page.specs.Marks.{badge, opening, heading, begun};

use requirement_document::Document;
use requirement_report::{behaviour_name, name_of, put_flat, put_worded};
use std::alloc::{AllocError, Global};

/// How an article ends.
pub const ENDED: &[u8] = b"</article>\n";

/// Adds the bytes, with an entity in place of each one that HTML would read as a mark.
fn put_escaped(text: &[u8], out: &mut Vec<u8>) -> Result<(), AllocError>
    ensures { OnOk result (out.new.items ≡ out.old.items ++ escaped text.now) }
{
    for byte in text {
        put_escaped_byte(*byte, out)?;
    }
    Ok(())
}

/// Adds a byte, or an entity where HTML would read it as a mark. Quotes stay as they are, since nothing that
/// somebody wrote stands within a mark.
pub fn put_escaped_byte(byte: u8, out: &mut Vec<u8>) -> Result<(), AllocError>
    ensures { OnOk result (out.new.items ≡ out.old.items ++ escaped_byte byte) }
{
    match byte {
        b'&' => out.extend_from_slice(b"&amp;"),
        b'<' => out.extend_from_slice(b"&lt;"),
        b'>' => out.extend_from_slice(b"&gt;"),
        _ => {
            out.push(byte)?;
            Ok(())
        }
    }
}

/// Adds a line, escaped and with a direction of its own: words that run from right to left do not turn round
/// what stands beside them.
fn put_turned(line: &[u8], out: &mut Vec<u8>) -> Result<(), AllocError>
    ensures { OnOk result (out.new.items ≡ out.old.items ++ turned line.now) }
{
    out.extend_from_slice(b"<bdi>")?;
    put_escaped(line, out)?;
    out.extend_from_slice(b"</bdi>")
}

/// Adds what somebody wrote, flat and escaped: a name, say.
pub fn put_said(alloc: Global, text: &str, out: &mut Vec<u8>) -> Result<(), AllocError>
    ensures { OnOk result (out.new.items ≡ out.old.items ++ said text.now) }
{
    let mut line = Vec::new(alloc);
    put_flat(alloc, text, &mut line)?;
    put_turned(&line, out)
}

/// Adds a line as code. It is escaped here, and has to be on one line already.
pub fn put_code(line: &[u8], out: &mut Vec<u8>) -> Result<(), AllocError>
    ensures { OnOk result (out.new.items ≡ out.old.items ++ code line.now) }
{
    out.extend_from_slice(b"<code>")?;
    put_turned(line, out)?;
    out.extend_from_slice(b"</code>")
}

/// Adds what somebody wrote as code, flat and escaped: a formula as it is written, or a letter.
pub fn put_said_code(alloc: Global, text: &str, out: &mut Vec<u8>) -> Result<(), AllocError>
    ensures { OnOk result (out.new.items ≡ out.old.items ++ code (flat text.now)) }
{
    let mut line = Vec::new(alloc);
    put_flat(alloc, text, &mut line)?;
    put_code(&line, out)
}

/// Adds a paragraph. Its content is HTML, and is not escaped here.
pub fn put_paragraph(content: &[u8], out: &mut Vec<u8>) -> Result<(), AllocError>
    ensures { OnOk result (out.new.items ≡ out.old.items ++ paragraph content.now) }
{
    out.extend_from_slice(b"<p>")?;
    out.extend_from_slice(content)?;
    out.extend_from_slice(b"</p>\n")
}

/// Adds what somebody wrote as a paragraph, flat and escaped, where there is anything.
pub fn put_sentence(alloc: Global, text: &str, out: &mut Vec<u8>) -> Result<(), AllocError>
    ensures { OnOk result (out.new.items ≡ out.old.items ++ paragraph_if (flat text.now)) }
{
    let mut line = Vec::new(alloc);
    put_flat(alloc, text, &mut line)?;
    put_paragraph_if(&line, out)
}

/// Adds a line as a paragraph, escaped, where it is not empty.
fn put_paragraph_if(line: &[u8], out: &mut Vec<u8>) -> Result<(), AllocError>
    ensures { OnOk result (out.new.items ≡ out.old.items ++ paragraph_if line.now) }
{
    if line.is_empty() {
        return Ok(());
    }
    out.extend_from_slice(b"<p>")?;
    put_turned(line, out)?;
    out.extend_from_slice(b"</p>\n")
}

/// Adds a name as a link to the item or behaviour that has this number on the page.
fn put_link(alloc: Global, number: u128, name: &str, out: &mut Vec<u8>) -> Result<(), AllocError>
    ensures { OnOk result (out.new.items ≡ out.old.items ++ link number name.now) }
{
    put_worded(b"<a href=\"#item-", number, out)?;
    out.extend_from_slice(b"\">")?;
    put_said(alloc, name, out)?;
    out.extend_from_slice(b"</a>")
}

/// Adds the name of an item as a link to it.
pub fn put_item_link(
    alloc: Global,
    document: &Document,
    item: u32,
    out: &mut Vec<u8>,
) -> Result<(), AllocError>
    ensures { OnOk result (out.new.items
        ≡ out.old.items ++ item_link (document_in document.now) item) }
{
    put_link(alloc, item_number(item), name_of(document, item), out)
}

/// Adds the name of a behaviour as a link to it.
pub fn put_behaviour_link(
    alloc: Global,
    document: &Document,
    behaviour: u32,
    out: &mut Vec<u8>,
) -> Result<(), AllocError>
    ensures { OnOk result (out.new.items
        ≡ out.old.items ++ behaviour_link (document_in document.now) behaviour) }
{
    let number = behaviour_number(document, behaviour);
    put_link(alloc, number, behaviour_name(document, behaviour), out)
}

/// The number of an item on the page, which counts from 1. In the document items count from 0.
pub fn item_number(item: u32) -> u128
    ensures { result ≡ item + 1 }
{
    item as u128 + 1
}

/// The number of a behaviour on the page, where behaviours are counted behind all items.
pub fn behaviour_number(document: &Document, behaviour: u32) -> u128
    ensures { result ≡ length (document_in document.now).items + behaviour + 1 }
{
    document.items.len() as u128 + behaviour as u128 + 1
}

/// Adds a badge: a word in the colour of its sort, with a border around it.
pub fn put_badge(sort: &[u8], word: &[u8], out: &mut Vec<u8>) -> Result<(), AllocError>
    ensures { OnOk result (out.new.items ≡ out.old.items ++ badge sort.now word.now) }
{
    out.extend_from_slice(b"<span class=\"word ")?;
    out.extend_from_slice(sort)?;
    out.extend_from_slice(b"\">")?;
    out.extend_from_slice(word)?;
    out.extend_from_slice(b"</span>")
}

/// Adds how the article of an answer begins. `number` is its place among the answers, from 1; the subject is
/// HTML, and is not escaped here.
pub fn put_begun(
    sort: &[u8],
    number: u128,
    word: &[u8],
    subject: &[u8],
    out: &mut Vec<u8>,
) -> Result<(), AllocError>
    ensures { OnOk result (out.new.items
        ≡ out.old.items ++ begun sort.now number word.now subject.now) }
{
    put_opening(sort, number, out)?;
    put_heading(sort, word, subject, out)
}

/// Adds the mark that opens an article, with its sort as a class and the number by which links lead to it.
fn put_opening(sort: &[u8], number: u128, out: &mut Vec<u8>) -> Result<(), AllocError>
    ensures { OnOk result (out.new.items ≡ out.old.items ++ opening sort.now number) }
{
    out.extend_from_slice(b"<article class=\"")?;
    out.extend_from_slice(sort)?;
    put_worded(b"\" id=\"answer-", number, out)?;
    out.extend_from_slice(b"\">\n")
}

/// Adds the heading of an article: the badge of its word, and what it is about.
fn put_heading(
    sort: &[u8],
    word: &[u8],
    subject: &[u8],
    out: &mut Vec<u8>,
) -> Result<(), AllocError>
    ensures { OnOk result (out.new.items
        ≡ out.old.items ++ heading sort.now word.now subject.now) }
{
    out.extend_from_slice(b"<h3>")?;
    put_badge(sort, word, out)?;
    out.extend_from_slice(b" ")?;
    out.extend_from_slice(subject)?;
    out.extend_from_slice(b"</h3>\n")
}
