// The JSON of a report, written by hand. Names and sentences have what JSON and HTML could take for their
// own, and each letter stands in more than one item.
use crate::reporting::reported;
use requirement_answers::Scope;
use requirement_json::json;
use requirement_questions::Limits;
use std::test::Fail;

const LIMITS: Limits = Limits { steps: 100_000 };

pub(crate) const QUOTED: &str = r#"traces = "finite"
[[assume]]
name = "<b>\"Q\" & 'q'</b>"
text = "It \\ rains,\n\tthen é."
formula = "p & !q & r"
[[assume]]
name = "calm"
formula = "r & wX false"
[[require]]
name = "ask"
formula = "G (p -> q)"
[[ensure]]
name = "</p><script>"
text = "1 < 2 && \"3\" > 2"
formula = "r"
[[behaviour]]
name = "log \"1\""
states = [["p"]]
"#;

/// The text without its last newline, in parts.
const QUOTED_JSON: &str = r#"{"answers":[
{"answer":"conflict","because":[
{"matters":"((p & !q) & …)","name":"<b>\"Q\" & 'q'</b>","needed":true},
{"matters":"G (p -> q)","name":"ask","needed":true}],"claims":[],"question":"consistent"},
{"answer":"consistent","question":"consistent","trace":{"kind":"finite","states":[["r"]]}},
{"answer":"follows","because":[{"name":"calm","needed":true}],"claims":[],"name":"</p><script>",
"question":"follows"},
{"answer":"breaks","breaks":[{"name":"<b>\"Q\" & 'q'</b>","position":0},{"name":"calm","position":0},
{"asked":"p","name":"ask","position":0,"unanswered":"q"}],"name":"log \"1\"","question":"keeps",
"trace":{"kind":"finite","states":[["p"]]}}],
"aside":["<b>\"Q\" & 'q'</b>","ask"],
"items":[{"formula":"p & !q & r","name":"<b>\"Q\" & 'q'</b>","role":"assume",
"text":"It \\ rains,\n\tthen é."},{"formula":"r & wX false","name":"calm","role":"assume","text":null},
{"formula":"G (p -> q)","name":"ask","role":"require","text":null},{"formula":"r","name":"</p><script>",
"role":"ensure","text":"1 < 2 && \"3\" > 2"}],
"letters":[{"items":["<b>\"Q\" & 'q'</b>","ask"],"letter":"p"},{"items":["<b>\"Q\" & 'q'</b>","ask"],
"letter":"q"},{"items":["<b>\"Q\" & 'q'</b>","calm","</p><script>"],"letter":"r"}],
"slips":[],"traces":"finite","verdict":"not as wished"}"#;

#[test]
fn writes_json(rt: HostRuntime) -> Result<(), Fail> {
    let alloc = rt.alloc();
    let (document, report) = reported(&rt, alloc, QUOTED, Scope::All, LIMITS)?;
    let text = String::from_utf8(json(alloc, &document, &report, LIMITS)?)?;
    let mut wanted = String::new(alloc);
    for part in QUOTED_JSON.lines() {
        wanted.push_str(part)?;
    }
    wanted.push_str("\n")?;
    assert_eq!(rt; text.as_str(), wanted.as_str());
    Ok(())
}
