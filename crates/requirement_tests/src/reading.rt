// Formulas and traces from their texts.
ghost use Rattle.std.specs.Prelude.{◌<◌, length, IsTrue};
ghost use Rattle.ltl_word.specs.Trace.{IsTrace};

use ltl_lexer::tokens;
use ltl_parser::parse;
use ltl_syntax::FormulaTable;
use ltl_word::Trace;
use std::alloc::Global;
use std::process::Abort;

/// The table of a text and the number of its root.
pub(crate) fn formula(rt: &impl Abort, alloc: Global, text: &str) -> (FormulaTable, u32)
    ensures { result.1 < length result.0.nodes }
{
    let bytes = text.as_bytes();
    assert!(rt; bytes.len() < 10000);
    let tokens = tokens(alloc, bytes).expect(rt, "tokens");
    let (table, root) = parse(alloc, bytes, &tokens).expect(rt, "a formula");
    assert!(rt; root < table.len());
    (table, root)
}

fn has_states(trace: &Trace) -> bool
    ensures { IsTrue result → IsTrace trace.now }
{
    match trace {
        Trace::Infinite { stem: _, loop_part } => loop_part.as_slice().len() > 0,
        Trace::Finite { states } => states.as_slice().len() > 0,
    }
}

/// The trace of a text.
pub(crate) fn trace(rt: &impl Abort, alloc: Global, text: &str) -> Trace
    ensures { IsTrace result }
{
    let trace = Trace::from_json(alloc, text.as_bytes()).expect(rt, "a trace");
    assert!(rt; has_states(&trace));
    trace
}
