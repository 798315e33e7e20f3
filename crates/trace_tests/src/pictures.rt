// Pictures letter by letter. The expected ones were drawn by hand.
use ltl_word::{Name, Trace};
use std::alloc::{AllocError, Global};
use std::process::Abort;
use std::test::Fail;
use trace_view::{Grid, letters_of, svg, text};

// The trace of a text, and the grid of all its letters or of these.
fn grid(alloc: Global, json: &[u8], only: Option<&[&str]>) -> Result<Grid, Fail> {
    let Ok(trace) = Trace::from_json(alloc, json) else {
        return Err(Fail::new("the text is no trace"));
    };
    let letters = match only {
        None => letters_of(alloc, &trace)?.into_vec(),
        Some(only) => names(alloc, only)?,
    };
    match Grid::of(alloc, &trace, &letters) {
        Ok(grid) => Ok(grid),
        Err(_) => Err(Fail::new("there is no grid")),
    }
}

fn names(alloc: Global, texts: &[&str]) -> Result<Vec<Name>, AllocError> {
    let mut names = Vec::new(alloc);
    for text in texts {
        names.push(Name::new(alloc, text)?)?;
    }
    Ok(names)
}

#[test]
fn texts(rt: HostRuntime) -> Result<(), Fail> {
    let alloc = rt.alloc();
    let table: [(&[u8], Option<&[&str]>, usize, &str); 10] = [
        (
            br#"{"kind":"infinite","loop":[[],["p"]],"stem":[["p"]]}"#,
            None,
            80,
            "  0|1 2\np #|. #\n   ^--<\n",
        ),
        // no stem, and a loop of one state
        (
            br#"{"kind":"infinite","loop":[["q"]],"stem":[]}"#,
            None,
            80,
            " |0\nq|#\n ^<\n",
        ),
        (
            br#"{"kind":"finite","states":[["grant"],["req"],["grant","req"]]}"#,
            None,
            80,
            "      0 1 2\ngrant # . #\nreq   . # #\n",
        ),
        // no letters
        (
            br#"{"kind":"infinite","loop":[[]],"stem":[[]]}"#,
            None,
            80,
            " 0|1\n  ^<\n",
        ),
        // the letters that are asked for, in that order, one of which is never true
        (
            br#"{"kind":"finite","states":[["a","b"],["b"]]}"#,
            Some(&["c", "b"]),
            80,
            "  0 1\nc . .\nb # #\n",
        ),
        // blocks of two states: 1 column for the name, 2 for each state
        (
            br#"{"kind":"infinite","loop":[["p"],[],["p"]],"stem":[[],["p"]]}"#,
            None,
            6,
            "  0 1\np . #\n\n |2 3\np|# .\n ^---\n\n  4\np #\n -<\n",
        ),
        // one state a block, where none fits
        (
            br#"{"kind":"finite","states":[["p"],[]]}"#,
            None,
            0,
            "  0\np #\n\n  1\np .\n",
        ),
        // names of wide characters, and what can't be shown
        (
            "{\"kind\":\"finite\",\"states\":[[\"時計\",\"a\\n\"]]}".as_bytes(),
            None,
            80,
            "     0\na\u{FFFD}   #\n時計 #\n",
        ),
        // numbers of two digits
        (
            br#"{"kind":"infinite","loop":[["p"],[]],"stem":[[],[],[],[],[],[],[],[],[]]}"#,
            None,
            80,
            "   0  1  2  3  4  5  6  7  8| 9 10\np  .  .  .  .  .  .  .  .  .| #  .\n                            ^----<\n",
        ),
        // forty letters, of which the even ones are true at first and the odd ones then
        (
            br#"{"kind":"infinite","loop":[["p01","p03","p05","p07","p09","p11","p13","p15","p17","p19","p21","p23","p25","p27","p29","p31","p33","p35","p37","p39"]],"stem":[["p00","p02","p04","p06","p08","p10","p12","p14","p16","p18","p20","p22","p24","p26","p28","p30","p32","p34","p36","p38"]]}"#,
            None,
            80,
            "    0|1\np00 #|.\np01 .|#\np02 #|.\np03 .|#\np04 #|.\np05 .|#\np06 #|.\np07 .|#\np08 #|.\np09 .|#\np10 #|.\np11 .|#\np12 #|.\np13 .|#\np14 #|.\np15 .|#\np16 #|.\np17 .|#\np18 #|.\np19 .|#\np20 #|.\np21 .|#\np22 #|.\np23 .|#\np24 #|.\np25 .|#\np26 #|.\np27 .|#\np28 #|.\np29 .|#\np30 #|.\np31 .|#\np32 #|.\np33 .|#\np34 #|.\np35 .|#\np36 #|.\np37 .|#\np38 #|.\np39 .|#\n     ^<\n",
        ),
    ];
    for (json, only, width, wanted) in table {
        let grid = grid(alloc, json, only)?;
        assert!(rt;
            *text(alloc, &grid, width)? == *wanted.as_bytes(),
            "{wanted}"
        );
    }
    Ok(())
}

// What stands behind the style.
#[test]
fn diagrams(rt: HostRuntime) -> Result<(), Fail> {
    let alloc = rt.alloc();
    let table: [(&[u8], &str); 3] = [
        (
            br#"{"kind":"infinite","loop":[[]],"stem":[["a<b"]]}"#,
            "<rect class='paper' width='147' height='116'/>\n<rect class='loop' x='91' y='36' width='40' height='44'/>\n<path class='edge' d='M51 36V80M91 36V80M131 36V80'/>\n<text class='number' x='71' y='30'>0</text>\n<text class='number' x='111' y='30'>1</text>\n<text class='name' x='12' y='63'>a&lt;b</text>\n<path class='lane' d='M51 68V48H91V68H131V68'/>\n<path class='back' d='M119 80V100H103V84'/>\n<path class='head' d='M103 80l5 9h-10Z'/>\n</svg>\n",
        ),
        (
            br#"{"kind":"finite","states":[["q"],["&>"]]}"#,
            "<rect class='paper' width='138' height='152'/>\n<path class='edge' d='M42 36V116M82 36V116M122 36V116'/>\n<text class='number' x='62' y='30'>0</text>\n<text class='number' x='102' y='30'>1</text>\n<text class='name' x='12' y='63'>&amp;&gt;</text>\n<path class='lane' d='M42 68V68H82V48H122V68'/>\n<text class='name' x='12' y='99'>q</text>\n<path class='lane' d='M42 104V84H82V104H122V104'/>\n</svg>\n",
        ),
        // no letters
        (
            br#"{"kind":"finite","states":[[]]}"#,
            "<rect class='paper' width='80' height='80'/>\n<path class='edge' d='M24 36V44M64 36V44'/>\n<text class='number' x='44' y='30'>0</text>\n</svg>\n",
        ),
    ];
    for (json, wanted) in table {
        let picture = svg(alloc, &grid(alloc, json, None)?)?;
        let (_head, tail) = split(&picture, picture.len().saturating_sub(wanted.len()));
        assert!(rt; *tail == *wanted.as_bytes(), "{wanted}");
    }
    Ok(())
}

fn split(bytes: &[u8], at: usize) -> (&[u8], &[u8]) {
    bytes.split_at(at.min(bytes.len()))
}

#[test]
fn accessors(rt: HostRuntime) -> Result<(), Fail> {
    let alloc = rt.alloc();
    let grid = grid(
        alloc,
        br#"{"kind":"infinite","loop":[["p"]],"stem":[["q"]]}"#,
        None,
    )?;
    assert_eq!(rt; grid.states(), 2);
    assert_eq!(rt; grid.loop_at(), Some(1));
    assert_eq!(rt; grid.rows().len(), 2);
    let mut shown = String::new(alloc);
    for row in grid.rows() {
        shown.push_str(row.name())?;
        for state in 0..3 {
            shown.push_str(if row.is_filled(state) { "#" } else { "." })?;
        }
    }
    assert_eq!(rt; shown.as_str(), "p.#.q#..");
    Ok(())
}
