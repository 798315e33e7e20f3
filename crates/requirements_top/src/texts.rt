// The usage, the help, and the lines about names and limits.
ghost use Rattle.std.specs.Prelude.{◌≡◌, ◌++◌, IfOk, OnOk};
ghost use Rattle.report.specs.Texts.{line};
ghost use Rattle.requirement_document.specs.Values.{document_in};
ghost use Rattle.requirements_top.specs.Texts.{usage_text, help_text, no_item_text, no_certificate_text};
ghost use Rattle.requirements_top.specs.Texts.{beyond_text, cells_text};

use crate::refusing::put_name;
use requirement_document::Document;
use requirement_report::{behaviour_name, put_flat};
use std::alloc::{AllocError, Global};

/// A line for each of the four calls.
pub fn usage_text(alloc: Global) -> Result<Vec<u8>, AllocError>
    ensures { IfOk result (λ text. text.items ≡ usage_text) }
{
    let mut text = Vec::new(alloc);
    text.extend_from_slice(
        b"usage: black_requirements [--json | --html] [--only NAME] [--steps N] [--workers N] [--progress]\n",
    )?;
    text.extend_from_slice(
        b"usage: black_requirements --cert NAME [--steps N] [--workers N] [--progress]\n",
    )?;
    text.extend_from_slice(b"usage: black_requirements --letters\n")?;
    text.extend_from_slice(b"usage: black_requirements --help\n")?;
    Ok(text)
}

/// What the program does.
const ABOUT: &[u8] = b"
Reads a document of named requirements from standard input and says whether they
can be met together, which of them conflict, what may happen, what follows, and
what is never triggered or says nothing new.
";

/// Its options.
const OPTIONS: &[u8] = b"
  --json         the report as one line of JSON
  --html         the report as a page
  --letters      the letters of the document, with the items that have them
  --only NAME    the questions of one item or behaviour
  --cert NAME    a certificate of what is impossible, for black_refute --check
  --steps N      how long a question is tried: 10000000 where it is not given
  --workers N    how many threads answer questions: 1 where it is not given
  --progress     a line on standard error for each question
";

/// What a requirement looks like.
const EXAMPLE: &[u8] = b"
A requirement of a document:

  [[require]]
  name = \"pump out\"
  text = \"Where the water is high, the pump runs within three steps.\"
  formula = \"G (high -> F[0,3] pump)\"
";

/// What else there is, and the statuses.
const OTHERS: &[u8] = b"
Other sections: [[define]], [[assume]], [[allow]], [[ensure]], [[behaviour]].
Status: 0 as wished, 1 not as wished, 30 undecided; 2 words that are not taken,
3 a fault of the document, 4 a limit, 5 to 8 reading, writing, memory, words.
";

/// The usage, and the help.
pub fn help_text(alloc: Global) -> Result<Vec<u8>, AllocError>
    ensures { IfOk result (λ text. text.items ≡ help_text) }
{
    let mut text = usage_text(alloc)?;
    text.extend_from_slice(ABOUT)?;
    text.extend_from_slice(OPTIONS)?;
    text.extend_from_slice(EXAMPLE)?;
    text.extend_from_slice(OTHERS)?;
    Ok(text)
}

/// Nothing has the name that is asked about.
pub fn no_item_text(alloc: Global, name: &str) -> Result<Vec<u8>, AllocError>
    ensures { IfOk result (λ text. text.items ≡ no_item_text name.now) }
{
    let mut text = Vec::from_slice(alloc, b"no item ")?;
    put_flat(alloc, name, &mut text)?;
    text.push(b'\n')?;
    Ok(text)
}

/// No answer about what has the name says that there is no trace.
pub fn no_certificate_text(alloc: Global, name: &str) -> Result<Vec<u8>, AllocError>
    ensures { IfOk result (λ text. text.items ≡ no_certificate_text name.now) }
{
    let mut text = Vec::from_slice(alloc, b"no certificate: nothing about ")?;
    put_flat(alloc, name, &mut text)?;
    text.extend_from_slice(b" is impossible\n")?;
    Ok(text)
}

/// The certificate is too long, or its formula is too long or too large.
pub fn beyond_text(alloc: Global) -> Result<Vec<u8>, AllocError>
    ensures { IfOk result (λ text. text.items ≡ beyond_text) }
{
    Vec::from_slice(alloc, b"certificate beyond the limits of texts\n")
}

/// The behaviour has too many states for a formula.
pub fn cells_text(alloc: Global, document: &Document, behaviour: u32) -> Result<Vec<u8>, AllocError>
    ensures { IfOk result (λ text. text.items ≡ cells_text (document_in document.now) behaviour) }
{
    let number = behaviour as u64 + 1;
    let mut text = Vec::from_slice(alloc, b"limit cells 67108864 in behaviour ")?;
    text.extend_from_slice(number.to_string(alloc)?.as_bytes())?;
    put_name(alloc, behaviour_name(document, behaviour), &mut text)?;
    text.push(b'\n')?;
    Ok(text)
}
