// Texts of reports, written by hand. The formulas say all of the traces that are shown. Each letter stands in
// more than one item, but for those that may be slips.
use crate::reporting::reported;
use requirement_answers::Scope;
use requirement_questions::Limits;
use requirement_report::text;
use std::alloc::Global;
use std::test::Fail;
use std::thread::Threads;

/// The text of the report on the document.
fn shown<R: Threads + Sync>(
    rt: &R,
    alloc: Global,
    written: &str,
    scope: Scope,
    limits: Limits,
) -> Result<String, Fail> {
    let (document, report) = reported(rt, alloc, written, scope, limits)?;
    let shown = text(alloc, &document, &report, scope, limits)?;
    Ok(String::from_utf8(shown)?)
}

const CONFLICT: &str = "traces = \"finite\"
[[assume]]
name = \"storm\"
text = \"It rains,\\n  then no more.\\n\"
formula = \"rain & X (!rain & wX false)\"
[[require]]
name = \"fill\"
text = \"  \"
formula = \"low &\\n  pump\"
[[require]]
name = \"dry\\tout\"
text = \"\\tNo pump\\n at all.\\n\"
formula = \"G !pump\"
[[allow]]
name = \"burst\"
formula = \"low & X !low\"
[[allow]]
name = \"drought\"
formula = \"G !rain\"
[[ensure]]
name = \"never\"
text = \"Never both.\"
formula = \"low & pump -> X (low | pump)\"
[[ensure]]
name = \"sun\"
formula = \"F !rain\"
[[behaviour]]
name = \"log\"
text = \"As it was.\"
states = [[\"low\"], [\"pump\"], []]
";

const CONFLICT_TEXT: &str = "conflict: fill, dry out
    fill
        low & pump
        matters: (… & pump)
    dry out
        No pump at all.
        G !pump
        matters: G !pump
    no first state meets them

consistent: 1 of 3
    without: fill, dry out
         0 1
    rain # .

possible: burst
         0 1
    low  # .
    rain # .

impossible: drought
    because of: storm

fails: never
    Never both.
         0 1
    low  # .
    pump # .
    rain # .

follows: sun
    because of: storm

breaks: log
    As it was.
    storm at 0
    fill at 0
    dry out at 1
         0 1 2
    low  # . .
    pump . # .
    !    # # .

not as wished
    met together: 1 of 3
    possible: 1 of 2
    follows: 1 of 2
    keeps all: 0 of 1
";

const LOGS: &str = "traces = \"finite\"
[[assume]]
name = \"quiet\"
formula = \"end & !p & !q & !r & !s & wX false\"
[[require]]
name = \"answer <b>\"
formula = \"G (p & s -> (q | r))\"
[[ensure]]
name = \"third\"
formula = \"end | !end\"
[[behaviour]]
name = \"good\"
states = [[\"end\"]]
[[behaviour]]
name = \"bad\"
text = \"It asks.\"
stem = [[]]
loop = [[\"p\", \"s\"]]
";

const LOGS_TEXT: &str = "consistent: 2 of 2
        0
    end #

never triggered: answer <b>
    because of: quiet

follows from the others: answer <b>
    because of: quiet

follows: third
    by itself

keeps: good

breaks: bad
    It asks.
    quiet at 0
    answer <b> at 1
        asked: p & s
        not answered: q | r
      0|1
    p .|#
    s .|#
    ! #|#
       ^<

not as wished
    met together: 2 of 2
    triggered: 0 of 1
    says something new: 0 of 1
    follows: 1 of 1
    keeps all: 1 of 2
";

const ONCE: &str = "traces = \"finite\"
[[assume]]
name = \"once\"
formula = \"p & wX false\"
[[require]]
name = \"ask\"
text = \"It says more.\"
formula = \"G (p -> q)\"
[[allow]]
name = \"may\"
formula = \"q\"
";

const ASK_TEXT: &str = "consistent: 2 of 2
      0
    p #
    q #

triggered: ask
    It says more.
      0
    p #
    q #

new: ask
    It says more.
      0
    p #

as wished
    met together: 2 of 2
    triggered: 1 of 1
    says something new: 1 of 1
";

const ONCE_TEXT: &str = "consistent: 2 of 2
      0
    p #
    q #

possible: may
      0
    p #
    q #

as wished
    met together: 2 of 2
    triggered: 1 of 1
    says something new: 1 of 1
    possible: 1 of 1
";

const UNTRIED_TEXT: &str = "undecided: 2 of 2
    can all of them be met together?
    tried: 0 steps

undecided: ask
    It says more.
    is it ever triggered?
    tried: 0 steps

undecided: ask
    It says more.
    does it say anything new?
    tried: 0 steps

undecided: may
    may it happen?
    tried: 0 steps

undecided
    met together: 0 of 2
    triggered: 0 of 1
    says something new: 0 of 1
    possible: 0 of 1
";

/// What is left without the first item has traces of 61 states, for which the steps are too few.
const LONG: &str = "traces = \"finite\"
[[assume]]
name = \"a\"
formula = \"!p\"
[[assume]]
name = \"b\"
formula = \"p & X[60] true\"
[[assume]]
name = \"c\"
formula = \"p & wX false\"
";

const LONG_TEXT: &str = "conflict: a (perhaps), b
    a
        !p
        matters: !p
    b
        p & X[60] true
        matters: (p & …)
    no first state meets them

consistent: 1 of 3
    without: a, b
      0
    p #

not as wished
    met together: 1 of 3
";

/// Two items of the size 10,019: a definition of the size 1,001 ten times, and nine times `&`.
const LARGE: &str = "define = [{ name = \"a\", formula = \"X[250] X[250] X[250] X[250] p\" },
    { name = \"b\", formula = \"a & a & a & a & a & a & a & a & a & a\" }]
assume = [{ name = \"one\", formula = \"b\" }, { name = \"two\", formula = \"b\" }]
";

const LARGE_TEXT: &str = "undecided: 2 of 2
    can all of them be met together?
    limit nodes 16384 have 20039

undecided
    met together: 0 of 2
";

const SLIPS: &str = "traces = \"finite\"
[[assume]]
name = \"a\"
formula = \"request & ack_on & wX false\"
[[assume]]
name = \"b\"
formula = \"request & !requst & !ackOn & !lone\"
";

const SLIPS_TEXT: &str = "consistent: 2 of 2
            0
    ack_on  #
    request #

perhaps a slip
    ackOn: in b alone; nearly ack_on
    ack_on: in a alone; nearly ackOn
    lone: in b alone
    requst: in b alone; nearly request

as wished
    met together: 2 of 2
";

/// A document, what is asked of it, the steps, and the text.
const ROWS: &[(&str, Scope, u32, &str)] = &[
    (CONFLICT, Scope::All, 100_000, CONFLICT_TEXT),
    (LOGS, Scope::All, 100_000, LOGS_TEXT),
    (ONCE, Scope::Item(1), 100_000, ASK_TEXT),
    // What is triggered and new goes without saying.
    (ONCE, Scope::All, 100_000, ONCE_TEXT),
    (ONCE, Scope::All, 0, UNTRIED_TEXT),
    (LONG, Scope::All, 30, LONG_TEXT),
    (LARGE, Scope::All, 100_000, LARGE_TEXT),
    (SLIPS, Scope::All, 100_000, SLIPS_TEXT),
];

#[test]
fn texts(rt: HostRuntime) -> Result<(), Fail> {
    for (written, scope, steps, wanted) in ROWS {
        let found = shown(&rt, rt.alloc(), written, *scope, Limits { steps: *steps })?;
        assert_eq!(rt; found.as_str(), *wanted);
    }
    Ok(())
}
