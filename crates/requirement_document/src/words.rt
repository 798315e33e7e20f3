// The words of sections and keys, and which of them may stand where.
ghost use Rattle.std.specs.Prelude.{◌≡◌};
ghost use Rattle.requirement_document.specs.Keys.{section_word, key_word, knows_document, knows_formula};
ghost use Rattle.requirement_document.specs.Keys.{knows_behaviour, knows_at};
ghost use Rattle.requirement_document.specs.Document.{section_of};

use crate::{Key, Role, Section};

/// The word of a section, as a document has it between `[[` and `]]`.
pub fn section_word(section: Section) -> &'static str
    ensures { result.now ≡ section_word section }
{
    match section {
        Section::Define => "define",
        Section::Assume => "assume",
        Section::Require => "require",
        Section::Allow => "allow",
        Section::Ensure => "ensure",
        Section::Behaviour => "behaviour",
    }
}

/// The word of a key, as a document has it. The sections are keys of the document too.
pub fn key_word(key: Key) -> &'static str
    ensures { result.now ≡ key_word key }
{
    match key {
        Key::Traces => "traces",
        Key::Section(section) => section_word(section),
        Key::Name => "name",
        Key::Text => "text",
        Key::Formula => "formula",
        Key::States => "states",
        Key::Stem => "stem",
        Key::Loop => "loop",
    }
}

/// The section of the items of a role.
pub fn section_of(role: Role) -> Section
    ensures { result ≡ section_of role }
{
    match role {
        Role::Assume => Section::Assume,
        Role::Require => Section::Require,
        Role::Allow => Section::Allow,
        Role::Ensure => Section::Ensure,
    }
}

fn knows_document(key: &str) -> bool
    ensures { result ≡ knows_document key.now }
{
    matches!(
        key,
        "traces" | "define" | "assume" | "require" | "allow" | "ensure" | "behaviour"
    )
}

fn knows_formula(key: &str) -> bool
    ensures { result ≡ knows_formula key.now }
{
    matches!(key, "name" | "text" | "formula")
}

fn knows_behaviour(key: &str) -> bool
    ensures { result ≡ knows_behaviour key.now }
{
    matches!(key, "name" | "text" | "states" | "stem" | "loop")
}

/// Whether the entries of a section may have the key, or the document itself.
pub fn knows(section: Option<Section>, key: &str) -> bool
    ensures { result ≡ knows_at section key.now }
{
    match section {
        None => knows_document(key),
        Some(Section::Behaviour) => knows_behaviour(key),
        Some(_) => knows_formula(key),
    }
}
