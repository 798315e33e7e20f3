use crate::formulas::formula;
use past_monitor::{Monitor, MonitorRefused, WatchRefused, state_of, watch};
use std::alloc::Global;
use std::process::Abort;
use std::test::Fail;

// The answers of a monitor of the formula to the states of the lines, or `future`.
fn answers(rt: &impl Abort, alloc: Global, text: &str, lines: &str) -> Result<String, Fail> {
    let (table, root) = formula(rt, alloc, text)?;
    assert!(rt; root < table.len());
    let mut monitor = match Monitor::new(alloc, &table, root) {
        Ok(monitor) => monitor,
        Err(MonitorRefused::Future) => return Ok(String::from_str(alloc, "future")?),
        Err(MonitorRefused::NoMemory) => return Err(Fail::from("memory")),
    };
    let mut told = String::new(alloc);
    for line in lines.lines() {
        let state = state_of(alloc, line.as_bytes())?.expect(rt, "a state");
        told.push(if monitor.step(&state) { 'T' } else { 'F' })?;
    }
    Ok(told)
}

#[test]
fn answers_each_state(rt: HostRuntime) -> Result<(), Fail> {
    let rows = [
        (
            "H (grant -> Y O req)",
            "[\"req\"]\n[\"grant\"]\n[\"grant\",\"req\"]",
            "TTT",
        ),
        ("H (grant -> Y O req)", "[\"grant\"]\n[\"req\"]", "FF"),
        ("Y[2] p", "[\"p\"]\n[]\n[]\n[]", "FFTF"),
        ("Y[0] p", "[\"p\"]\n[]", "TF"),
        ("Y p", "[\"p\"]\n[]\n[]", "FTF"),
        ("Z p", "[]\n[\"p\"]\n[]", "TFT"),
        ("O[1,2] p", "[\"p\"]\n[]\n[]\n[]", "FTTF"),
        ("O[0,0] p", "[\"p\"]\n[]", "TF"),
        ("H[1,2] p", "[\"p\"]\n[]\n[\"p\"]\n[\"p\"]\n[]", "TTFFT"),
        ("H[0,1] p", "[\"p\"]\n[]\n[\"p\"]\n[\"p\"]", "TFFT"),
        ("p S q", "[\"q\"]\n[\"p\"]\n[]\n[\"p\"]", "TTFF"),
        ("p T q", "[\"q\"]\n[]\n[\"p\",\"q\"]\n[\"q\"]", "TFTT"),
        ("p R q", "", "future"),
        ("F p", "", "future"),
        ("X[0] p", "", "future"),
    ];
    for (text, lines, want) in rows {
        assert_eq!(rt;
            answers(&rt, rt.alloc(), text, lines)?.as_str(),
            want,
            "{text} on {lines}"
        );
    }
    Ok(())
}

#[test]
fn reads_states_alone(rt: HostRuntime) -> Result<(), Fail> {
    let rows = [
        ("{}", None),
        ("[1]", None),
        ("[\"p\"", None),
        ("", None),
        (" [ \"q\" , \"p\", \"q\" ]", Some(2)),
        ("[]", Some(0)),
    ];
    for (line, want) in rows {
        let count = state_of(rt.alloc(), line.as_bytes())?.map(|state| state.names().len());
        assert_eq!(rt; count, want, "{line}");
    }
    Ok(())
}

// What is answered to the text by a monitor of `p`.
fn watched(
    rt: &impl Abort,
    alloc: Global,
    text: &str,
) -> Result<Result<usize, WatchRefused>, Fail> {
    let (table, root) = formula(rt, alloc, "p")?;
    assert!(rt; root < table.len());
    Ok(watch(alloc, &table, root, text.as_bytes()).map(|answers| answers
        .iter()
        .filter(|answer| **answer)
        .count()))
}

#[test]
fn watches_texts(rt: HostRuntime) -> Result<(), Fail> {
    let rows = [
        ("[\"p\"]\n{}", Err(WatchRefused::State(2))),
        ("\n \t\r\n[\"p\"]\r\n[]\n[\"p\"]\n", Ok(2)),
        ("\n[\"p\"]\n\np", Err(WatchRefused::State(4))),
        ("", Ok(0)),
    ];
    for (text, want) in rows {
        assert_eq!(rt; watched(&rt, rt.alloc(), text)?, want, "{text}");
    }
    Ok(())
}
