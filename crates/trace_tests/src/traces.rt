use ltl_word::{Name, StateSet, States, Trace, TraceFault};
use std::alloc::{AllocError, Global};
use std::test::Fail;

fn state(alloc: Global, names: &[&str]) -> Result<StateSet, AllocError> {
    let mut all = Vec::new(alloc);
    for name in names {
        all.push(Name::new(alloc, name)?)?;
    }
    StateSet::from_names(all)
}

fn states(alloc: Global, all: &[&[&str]]) -> Result<States, AllocError> {
    let mut states = Vec::new(alloc);
    for names in all {
        states.push(state(alloc, names)?)?;
    }
    Ok(States::new(states))
}

#[test]
fn a_state_is_a_set(rt: HostRuntime) -> Result<(), Fail> {
    let set = state(rt.alloc(), &["pq", "a", "é", "B", "a"])?;
    let mut text = String::new(rt.alloc());
    for name in set.names() {
        text.push_str(name.text())?;
        text.push_str(" ")?;
    }
    assert_eq!(rt; text.as_str(), "B a pq é ");
    for (name, want) in [
        ("a", true),
        ("pq", true),
        ("p", false),
        ("pqr", false),
        ("b", false),
        ("", false),
    ] {
        assert_eq!(rt; set.has(name), want, "{name}");
    }
    Ok(())
}

#[test]
fn lists_come_back(rt: HostRuntime) -> Result<(), Fail> {
    let mut text = String::new(rt.alloc());
    for state in states(rt.alloc(), &[&["q", "p"], &[], &["r"]])?.into_vec() {
        for name in state.into_vec() {
            text.push_str(name.into_string().as_str())?;
        }
        text.push_str("|")?;
    }
    assert_eq!(rt; text.as_str(), "pq||r|");
    Ok(())
}

#[test]
fn written(rt: HostRuntime) -> Result<(), Fail> {
    let alloc = rt.alloc();
    let stem = states(alloc, &[&["q", "p"], &[]])?;
    assert_eq!(rt; stem.len(), 2);
    assert!(rt; !stem.is_empty());
    let loop_part = states(alloc, &[&["a\"b"]])?;
    let text = Trace::Infinite { stem, loop_part }.to_json(alloc)?;
    assert_eq!(rt;
        text.as_slice(),
        br#"{"kind":"infinite","loop":[["a\"b"]],"stem":[["p","q"],[]]}"#.as_slice()
    );
    let text = Trace::Finite {
        states: states(alloc, &[&["q"], &["p"]])?,
    }
    .to_json(alloc)?;
    assert_eq!(rt;
        text.as_slice(),
        br#"{"kind":"finite","states":[["q"],["p"]]}"#.as_slice()
    );
    Ok(())
}

// what the bytes are read as, written again
fn reread(alloc: Global, bytes: &[u8]) -> Result<Vec<u8>, TraceFault> {
    Ok(Trace::from_json(alloc, bytes)?.to_json(alloc)?)
}

#[test]
fn read(rt: HostRuntime) -> Result<(), Fail> {
    let rows: [(&[u8], &[u8]); 7] = [
        (
            br#"{"kind":"infinite","loop":[[]],"stem":[["p"]]}"#,
            br#"{"kind":"infinite","loop":[[]],"stem":[["p"]]}"#,
        ),
        (
            br#"{"kind":"infinite","loop":[["p"],[]],"stem":[]}"#,
            br#"{"kind":"infinite","loop":[["p"],[]],"stem":[]}"#,
        ),
        (
            br#"{"kind":"finite","states":[["q"],["p"]]}"#,
            br#"{"kind":"finite","states":[["q"],["p"]]}"#,
        ),
        // any layout, keys in any order
        (
            b" {\n\"stem\" : [ [\"p\"] ],\t\"loop\":[[ ] ], \"kind\":\"\\u0069nfinite\" }\r\n",
            br#"{"kind":"infinite","loop":[[]],"stem":[["p"]]}"#,
        ),
        // names in any order, repeated, of any text
        (
            br#"{"kind":"finite","states":[["q","","p","q","{0}"]]}"#,
            br#"{"kind":"finite","states":[["","p","q","{0}"]]}"#,
        ),
        // of a key that repeats the last value counts
        (
            br#"{"kind":"finite","states":[],"states":[["p"]]}"#,
            br#"{"kind":"finite","states":[["p"]]}"#,
        ),
        (
            br#"{"kind":1,"kind":"finite","states":[[]]}"#,
            br#"{"kind":"finite","states":[[]]}"#,
        ),
    ];
    for (bytes, want) in rows {
        assert_eq!(rt; reread(rt.alloc(), bytes)?.as_slice(), want);
    }
    Ok(())
}

#[test]
fn refused(rt: HostRuntime) {
    let rows: [(&[u8], TraceFault); 24] = [
        (b"", TraceFault::NotJson),
        (b"[", TraceFault::NotJson),
        (b"\xff", TraceFault::NotJson),
        (
            b"{\"kind\":\"finite\",\"states\":[[\"\xff\"]]}",
            TraceFault::NotJson,
        ),
        (br#"{"kind":"finite","states":[[]]} x"#, TraceFault::NotJson),
        (b"{}", TraceFault::NotTrace),
        (b"[]", TraceFault::NotTrace),
        (
            br#"{"kind":"endless","loop":[[]],"stem":[]}"#,
            TraceFault::NotTrace,
        ),
        (
            br#"{"kind":"infinite","states":[[]]}"#,
            TraceFault::NotTrace,
        ),
        (
            br#"{"kind":"finite","loop":[[]],"stem":[]}"#,
            TraceFault::NotTrace,
        ),
        (br#"{"kind":"infinite","loop":[[]]}"#, TraceFault::NotTrace),
        (br#"{"kind":"infinite","stem":[[]]}"#, TraceFault::NotTrace),
        (
            br#"{"kind":"infinite","loop":[[]],"stem":[],"x":1}"#,
            TraceFault::NotTrace,
        ),
        (
            br#"{"a":1,"kind":"finite","states":[[]]}"#,
            TraceFault::NotTrace,
        ),
        (br#"{"loop":[[]],"stem":[]}"#, TraceFault::NotTrace),
        (br#"{"kind":"finite","states":{}}"#, TraceFault::NotTrace),
        (br#"{"kind":"finite","states":["p"]}"#, TraceFault::NotTrace),
        (br#"{"kind":"finite","states":[[1]]}"#, TraceFault::NotTrace),
        (
            br#"{"kind":"finite","states":[["p",null]]}"#,
            TraceFault::NotTrace,
        ),
        (
            br#"{"kind":"finite","states":[[["p"]]]}"#,
            TraceFault::NotTrace,
        ),
        // the form comes first
        (
            br#"{"kind":"infinite","loop":[],"stem":[1]}"#,
            TraceFault::NotTrace,
        ),
        (
            br#"{"kind":"infinite","loop":[],"stem":[["p"]]}"#,
            TraceFault::EmptyLoop,
        ),
        (
            br#"{"kind":"infinite","loop":[],"stem":[]}"#,
            TraceFault::EmptyLoop,
        ),
        (br#"{"kind":"finite","states":[]}"#, TraceFault::EmptyStates),
    ];
    for (bytes, want) in rows {
        assert_eq!(rt; reread(rt.alloc(), bytes).err(), Some(want));
    }
}
