// What texts are read as, by hand.
use crate::telling::told;
use std::test::Fail;

/// A text, and the document that it is.
const DOCUMENTS: &[(&str, &str)] = &[
    ("", "Infinite: "),
    // The order of the sections is that of the roles, and not that of the text.
    (
        "[[ensure]]\nname = \"never both\"\nformula = \"G !(low & high)\"\n
         [[require]]\nname = \"fill\"\ntext = \"It starts.\"\nformula = \"G (low -> F[0,3] pump)\"\n
         [[assume]]\nname = \"calm\"\nformula = \"G F !rain\"\n
         [[require]]\nname = \"dry\"\nformula = \"true\"\n",
        "Infinite: Assume calm (None) G F !rain; Require fill (Some(\"It starts.\")) G (low -> F[0,3] pump); \
         Require dry (None) true; Ensure never both (None) G !(low & high); ",
    ),
    // A definition is put in behind itself, and not before; what is put in is not looked at again.
    (
        "traces = \"finite\"\ndefine = [\n
         { name = \"a\", formula = \"b | X b\" },\n
         { name = \"b\", formula = \"p U a\", text = \"until\" },\n
         { name = \"p\", formula = \"false\" } ]\n
         [[allow]]\nname = \"both\"\nformula = \"F (a & b) & p\"\n",
        "Finite: Allow both (None) (F ((b | X b) & (p U (b | X b))) & false); ",
    ),
    // Names in other scripts, and what a page could take for a tag.
    (
        "[[require]]\nname = \"Füllstand 水位 уровень 🚰 مستوى\"\nformula = \"G (水位 -> X ψ)\"\n
         [[require]]\nname = '<b onclick=\"x()\">&amp;</b>'\ntext = \"<script>alert('1')</script>\"\nformula = \"F[1,2] a1\"\n",
        "Infinite: Require Füllstand 水位 уровень 🚰 مستوى (None) G (水位 -> X ψ); \
         Require <b onclick=\"x()\">&amp;</b> (Some(\"<script>alert('1')</script>\")) F[1,2] a1; ",
    ),
    // States are sets, and the kind of a behaviour is its own.
    (
        "[[behaviour]]\nname = \"log of 12 May\"\nstates = [[\"pump\", \"low\", \"pump\"], []]\n
         [[behaviour]]\nname = \"again\"\ntext = \"and again\"\nstem = []\nloop = [[], [\"水\"]]\n",
        "Infinite: log of 12 May (None) {\"kind\":\"finite\",\"states\":[[\"low\",\"pump\"],[]]}; \
         again (Some(\"and again\")) {\"kind\":\"infinite\",\"loop\":[[],[\"水\"]],\"stem\":[]}; ",
    ),
    // A definition may have the name of an item, since nothing else is named by both.
    (
        "define = [{ name = \"low\", formula = \"level\" }]\n
         assume = [{ name = \"low\", formula = \"low\" }]\nallow = []\n",
        "Infinite: Assume low (None) level; ",
    ),
    // A mark of the byte order is passed over, and a carriage return before a line feed is.
    ("\u{FEFF}traces = \"finite\"\r\n# the end\r\n", "Finite: "),
    // What no name of a letter may have may stand in the name of an item.
    (
        "allow = [{ name = \"a\\u0000\\n\", formula = \"p\" }]",
        "Infinite: Allow a\0\n (None) p; ",
    ),
];

#[test]
fn reads_documents(rt: HostRuntime) -> Result<(), Fail> {
    for (text, wanted) in DOCUMENTS {
        assert_eq!(rt; told(rt.alloc(), text.as_bytes())?.as_str(), *wanted);
    }
    Ok(())
}
