// A certificate text, item by item and without memory.
ghost use Rattle.std.specs.Prelude.{◌≡◌};
ghost use Rattle.cert_text.specs.Text.{Certificate, IsTextOf};
ghost use Rattle.cert_text.specs.Reading.{certificate_in};
ghost use Rattle.cert_text.specs.Items.{items_of};

use crate::finding::find;
use crate::item::{CertItem, item_in};
use std::marker::Model;

/// The items of a text that are still to come: its parts in order, and then the close. Behind the close there
/// are none.
#[derive(Drop)]
pub struct Items<'t> {
    whole: &'t [u8],
    at: usize,
}

impl<'t> Model for Items<'t> {
    ghost use Rattle.std.specs.Prelude.{List};
    ghost use Rattle.cert_text.specs.declared.item.CertItem.{CertItem};
    ghost use Rattle.cert_text.specs.Items.{items_at, IsReading};

    ghost Value = { List CertItem };

    ghost view = { λ a. items_at a.whole.now a.at };

    ghost invariant = { λ a. IsReading a.whole.now a.at };
}

impl<'t> Items<'t> {
    /// All items of the text.
    pub fn new(bytes: &'t [u8]) -> Items<'t>
        requires { (c : Certificate) × IsTextOf bytes.now c }
        ensures { result ≡ items_of (certificate_in bytes.now) }
    {
        let at = find(bytes, 0, b'\n') + 1;
        Items { whole: bytes, at }
    }
}

impl<'t> Iterator for Items<'t> {
    ghost use Rattle.std.specs.Iterator.{YieldsFirst, item_count};

    type Item = CertItem<'t>;

    ghost next_gives = { YieldsFirst (λ rest. rest) };

    ghost remaining = { item_count (λ rest. rest) };

    fn next(&mut self) -> Option<CertItem<'t>> {
        let start = self.at;
        if start >= self.whole.len() {
            return None;
        }
        let end = find(self.whole, start, b'\n');
        self.at = end + 1;
        Some(item_in(&self.whole[start..end]))
    }
}
