// One item of a certificate text: a line, a delete or the close.
ghost use Rattle.std.specs.Prelude.{◌≡◌, List, All};
ghost use Rattle.cnf_base.specs.declared.literal.Literal.{Literal as SomeLiteral};
ghost use Rattle.cnf_base.specs.declared.literal.Hint.{Hint as SomeHint};
ghost use Rattle.cert_text.specs.declared.item.CertItem.{CertItem as SomeItem};
ghost use Rattle.cert_text.specs.Text.{IsLiteral, IsHint};
ghost use Rattle.cert_text.specs.Items.{IsItem, item_line, line_text, IsItemLine, IsLineText};

use crate::finding::literals_end;
use crate::spelled::{Hints, LineNumbers, Literals};

/// A line, a delete or the close. The lists go over slices of the text and copy nothing.
#[derive(Drop)]
pub enum CertItem<'t> {
    /// A line, and the hints that show it. Lines are numbered from 1 in the order of the text.
    Line {
        literals: Literals<'t>,
        hints: Hints<'t>,
    },
    /// Numbers of lines that are not used any more. A number that names no live line has no effect.
    Delete {
        lines: LineNumbers<'t>,
    },
    /// The numbers of the target lines, as many as the depth plus 2.
    Close {
        targets: LineNumbers<'t>,
    },
}

fn line_in(line: &[u8]) -> (Literals<'_>, Hints<'_>)
    requires { IsLineText line.now }
    ensures { (literals : List SomeLiteral) (hints : List SomeHint) → All IsLiteral literals
        → All IsHint hints → line.now ≡ line_text literals hints
        → (result.0 ≡ literals) × (result.1 ≡ hints) }
{
    let middle = literals_end(line);
    let literals = Literals::new(&line[..middle]);
    let hints = Hints::new(&line[middle + 2..line.len() - 1]);
    (literals, hints)
}

/// The item that a line of the text spells, without its newline.
pub(crate) fn item_in(line: &[u8]) -> CertItem<'_>
    requires { IsItemLine line.now }
    ensures { (item : SomeItem) → IsItem item → line.now ≡ item_line item → result ≡ item }
{
    if line[0] == b'c' {
        let targets = LineNumbers::new(&line[5..]);
        return CertItem::Close { targets };
    }
    if line[0] == b'd' {
        let lines = LineNumbers::new(&line[1..]);
        return CertItem::Delete { lines };
    }
    let (literals, hints) = line_in(line);
    CertItem::Line { literals, hints }
}
