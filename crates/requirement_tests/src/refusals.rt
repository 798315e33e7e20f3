// How texts are refused: where the fault is, and what is wrong there.
use crate::telling::told;
use std::alloc::{AllocError, Global};
use std::test::Fail;

/// A text, and how that which is told of it begins.
const TEXTS: &[(&[u8], &str)] = &[
    (b"traces = \"inf\xFFinite\"", "Document NotText(13)"),
    (b"traces = \"finite\"\nallow = [", "Document NotToml"),
    (b"traces = \"finite\"\rallow = []", "Document NotToml"),
    (
        b"allow = [{ name = \"a\0\", formula = \"p\" }]",
        "Document NotToml",
    ),
    (b"allow = []\nallow = []", "Document NotToml"),
    (b"traces = 1", "Document Unfit(Traces)"),
    (b"traces = \"some\"", "Document Unfit(Traces)"),
    (b"zoo = 1\nassumes = []", "Document UnknownKey(\"assumes\")"),
    (
        b"[require]\nname = \"a\"",
        "Document Unfit(Section(Require))",
    ),
];

#[test]
fn refuses_texts(rt: HostRuntime) -> Result<(), Fail> {
    for (text, wanted) in TEXTS {
        let found = told(rt.alloc(), text)?;
        assert!(rt; found.as_str().starts_with(*wanted), "{found}");
    }
    Ok(())
}

/// Definitions of 3, 15, 63, 255, 1023, 4095 and 16383 nodes.
pub(crate) const DEFINITIONS: &str = "define = [{ name = \"a0\", formula = \"p & q\" },
    { name = \"a1\", formula = \"a0 & a0 & a0 & a0\" }, { name = \"a2\", formula = \"a1 & a1 & a1 & a1\" },
    { name = \"a3\", formula = \"a2 & a2 & a2 & a2\" }, { name = \"a4\", formula = \"a3 & a3 & a3 & a3\" },
    { name = \"a5\", formula = \"a4 & a4 & a4 & a4\" }, { name = \"a6\", formula = \"a5 & a5 & a5 & a5\" },";

/// An entry, and what is told of it.
const ENTRIES: &[(&str, &str)] = &[
    ("allow = [1]", "Allow 1 None NotTable"),
    (
        "ensure = [{ name = \"a\", formula = \"p\", states = [] }]",
        "Ensure 1 Some(\"a\") UnknownKey(\"states\")",
    ),
    (
        "assume = [{ formula = \"p\" }]",
        "Assume 1 None Missing(Name)",
    ),
    (
        "assume = [{ name = 1, formula = \"p\" }]",
        "Assume 1 None Unfit(Name)",
    ),
    (
        "assume = [{ name = \"\", formula = \"p\" }]",
        "Assume 1 Some(\"\") EmptyName",
    ),
    (
        "allow = [{ name = \"水\", formula = \"p\" }, { name = \"水\", formula = \"q\" }]",
        "Allow 2 Some(\"水\") NameTwice",
    ),
    (
        "behaviour = [{ name = \"<a>\", states = [[]] }]\nassume = [{ name = \"<a>\", formula = \"p\" }]",
        "Behaviour 1 Some(\"<a>\") NameTwice",
    ),
    (
        "define = [{ name = \"a\", formula = \"p\" }, { name = \"a\", formula = \"p\" }]",
        "Define 2 Some(\"a\") NameTwice",
    ),
    (
        "define = [{ name = \"(a)\", formula = \"p\" }]",
        "Define 1 Some(\"(a)\") NoLetter",
    ),
    (
        "define = [{ name = \" a\", formula = \"p\" }]",
        "Define 1 Some(\" a\") NoLetter",
    ),
    (
        "define = [{ name = \"U\", formula = \"p\" }]",
        "Define 1 Some(\"U\") NoLetter",
    ),
    (
        "define = [{ name = \"a\\u0000\", formula = \"p\" }]",
        "Define 1 Some(\"a\\0\") NoLetter",
    ),
    (
        "define = [{ name = \"\\uFEFFa\", formula = \"p\" }]",
        "Define 1 Some(\"\\u{feff}a\") NoLetter",
    ),
    (
        "define = [{ name = \"1a\", formula = \"p\" }]",
        "Define 1 Some(\"1a\") NoLetter",
    ),
    (
        "require = [{ name = \"a\", text = [], formula = \"p\" }]",
        "Require 1 Some(\"a\") Unfit(Text)",
    ),
    (
        "require = [{ name = \"a\" }]",
        "Require 1 Some(\"a\") Missing(Formula)",
    ),
    (
        "require = [{ name = \"a\", formula = true }]",
        "Require 1 Some(\"a\") Unfit(Formula)",
    ),
    // The bytes are those of the value, and not of how TOML writes it.
    (
        "require = [{ name = \"a\", formula = \"\"\"\n  p\\\n    -> X\\u0020q # \"\"\" }]",
        "Require 1 Some(\"a\") Lexical(10) of   p-> X q # ",
    ),
    (
        "require = [{ name = \"a\", formula = \"G (p\" }]",
        "Require 1 Some(\"a\") Grammar(4) of G (p",
    ),
    (
        "behaviour = [{ name = \"b\" }]",
        "Behaviour 1 Some(\"b\") Form",
    ),
    (
        "behaviour = [{ name = \"b\", stem = [[]] }]",
        "Behaviour 1 Some(\"b\") Form",
    ),
    (
        "behaviour = [{ name = \"b\", states = [[]], loop = [[]] }]",
        "Behaviour 1 Some(\"b\") Form",
    ),
    (
        "behaviour = [{ name = \"b\", states = [[], [\"p\", 1]] }]",
        "Behaviour 1 Some(\"b\") Unfit(States)",
    ),
    (
        "behaviour = [{ name = \"b\", stem = [\"p\"], loop = [[]] }]",
        "Behaviour 1 Some(\"b\") Unfit(Stem)",
    ),
    (
        "behaviour = [{ name = \"b\", states = [] }]",
        "Behaviour 1 Some(\"b\") NoState",
    ),
    (
        "behaviour = [{ name = \"b\", stem = [[\"p\"]], loop = [] }]",
        "Behaviour 1 Some(\"b\") EmptyLoop",
    ),
];

#[test]
fn refuses_entries(rt: HostRuntime) -> Result<(), Fail> {
    for (text, wanted) in ENTRIES {
        assert_eq!(rt; told(rt.alloc(), text.as_bytes())?.as_str(), *wanted);
    }
    Ok(())
}

/// A front, a part and how often it stands behind that, and a back; and how that which is told begins.
type Grown = (&'static str, &'static str, u32, &'static str, &'static str);

/// A definition of 64 operators of the size 255 and a letter has the size 16,321.
const GROWN: &[Grown] = &[
    ("", " ", 4_194_304, "", "Infinite: "),
    ("", " ", 4_194_305, "", "Document TooLong"),
    ("allow = ", "[", 100_000, "", "Document NotToml"),
    ("allow = [", "1,", 1024, "]", "Allow 1 None NotTable"),
    ("allow = [", "1,", 1025, "]", "Document TooMany(Allow)"),
    (
        "allow = [{ name = \"a\", formula = \"",
        "(",
        1_048_576,
        "\" }]",
        "Allow 1 Some(\"a\") Grammar(1048576) of ((",
    ),
    (
        "allow = [{ name = \"a\", formula = \"p",
        " ",
        1_048_576,
        "\" }]",
        "Allow 1 Some(\"a\") TooLong",
    ),
    (
        "define = [{ name = \"a\", formula = \"",
        "X[255] ",
        64,
        "p\" }]\nallow = [{ name = \"b\", formula = \"X[63] (a)\" }]",
        "Infinite: Allow b (None) X[63] X[255] ",
    ),
    (
        "define = [{ name = \"a\", formula = \"",
        "X[255] ",
        64,
        "p\" }]\nallow = [{ name = \"b\", formula = \"X[64] a\" }]",
        "Allow 1 Some(\"b\") Size(16385)",
    ),
    // Each definition is four times as large as the one before it.
    (
        DEFINITIONS,
        "{ name = \"a7\", formula = \"a6 & a6 & a6 & a6\" }",
        1,
        "]",
        "Define 8 Some(\"a7\") Size(65535)",
    ),
];

/// A front, a part again and again, and a back.
pub(crate) fn repeated(
    alloc: Global,
    front: &str,
    part: &str,
    times: u32,
    back: &str,
) -> Result<String, AllocError> {
    let mut text = String::from_str(alloc, front)?;
    for _ in 0..times {
        text.push_str(part)?;
    }
    text.push_str(back)?;
    Ok(text)
}

#[test]
fn refuses_what_grows(rt: HostRuntime) -> Result<(), Fail> {
    let alloc = rt.alloc();
    for (front, part, times, back, wanted) in GROWN {
        let text = repeated(alloc, front, part, *times, back)?;
        let found = told(alloc, text.as_bytes())?;
        assert!(rt; found.as_str().starts_with(*wanted), "{wanted}");
    }
    Ok(())
}
