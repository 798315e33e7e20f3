// Certificates that were worked by hand, and the first reason of each that is spoiled.
use crate::building::{LayerRow, LineRow, certificate, formula};
use claim_check::{CertificateFault, ClaimVerdict, LayerFault, check};
use ltl_closure::Closure;
use ltl_syntax::Kind;
use std::alloc::Global;
use std::process::Abort;

#[derive(Clone, Copy)]
struct Row {
    text: &'static str,
    kind: Kind,
    layers: &'static [LayerRow],
    close: &'static [LineRow],
    target: u64,
    /// Of which kind it is asked.
    asked: Kind,
    verdict: ClaimVerdict,
}

// Entries: 1 `false`, 2 `true`, 3 `p`, 4 `F p`, 5 `X F p`, 6 `G F p`, 7 `wX G F p`, 8 `!p`, 9 `G !p`,
// 10 `wX G !p`, 11 the whole. 23 there is a next state, 24 a first state, 25 a last one; 46 clauses.
const AGAIN_AND_NEVER: &str = "G F p & G !p";

// `X F p` and `wX G !p` are never both due.
const NEVER_BOTH: LayerRow = LayerRow {
    eventuality: Some(0),
    claims: &[&[-5, -10]],
    base_lines: &[
        (&[-10, -23, 16, -5], &[39, 25, 31, 32, 43]),
        (&[-10, -23, -14], &[31, 32, 43]),
    ],
    base_targets: &[1, 2],
    step_lines: &[
        (&[-20, -15], &[20, 32, 33, 31, 47, 25]),
        (&[-10, -23, -5], &[39, -3, 43]),
    ],
    step_targets: &[4],
};

const NEVER_CLOSE: &[LineRow] = &[
    (&[-11], &[1, 17, 18, 7, 13, 14, 12, 48, 6]),
    (&[-24], &[45, -5]),
];

const NEVER: Row = Row {
    text: AGAIN_AND_NEVER,
    kind: Kind::Infinite,
    layers: &[NEVER_BOTH],
    close: NEVER_CLOSE,
    target: 6,
    asked: Kind::Infinite,
    verdict: ClaimVerdict::Verified,
};

// 33 there is a next state, 34 a first one; 66 clauses.
const AFTER_Q: &str = "G F (p & Y q) & F G !q";

// Where `G !q` is due and `q` is not there, `F (p & Y q)` is not due.
const NOT_DUE: LayerRow = LayerRow {
    eventuality: Some(0),
    claims: &[&[4, -8, -13], &[4, -10, -13]],
    base_lines: &[
        (&[-8, -33, 24, 4], &[61, 30, 35, 53]),
        (&[4, -33, -22], &[30, 61]),
        (&[-10, -33, 24, 4], &[61, 30, 35, 36, 55]),
        (&[4, -33, -22], &[30, 61]),
    ],
    base_targets: &[1, 2, 3, 4],
    step_lines: &[
        (&[-28, -24], &[27, 42, 43, 41, 67]),
        (&[-13, -33, 4, -8], &[61, 30, 53, 35, -5, 57]),
        (&[-13, -33, 4, -10], &[61, 30, 55, 36, 35, -5, 57]),
    ],
    step_targets: &[6, 7],
};

// `G F (p & Y q)` and `F G !q` are never both due.
const NOT_BOTH: LayerRow = LayerRow {
    eventuality: Some(1),
    claims: &[&[-10, -15]],
    base_lines: &[
        (&[-28, -26], &[27, 42, 43, 41, 68]),
        (&[-15, -33, 31, -10], &[27, 55, 37, -8, 49, 59]),
        (&[-10, -33, -28], &[27, -8, 37, 55]),
    ],
    base_targets: &[9, 10],
    step_lines: &[(&[-15, -33, -10], &[27, 55, 37, -8, 71, 49, 59])],
    step_targets: &[11],
};

const LAYERS: Row = Row {
    text: AFTER_Q,
    kind: Kind::Infinite,
    layers: &[NOT_DUE, NOT_BOTH],
    close: &[
        (&[-16], &[1, 24, 25, 11, 72, 23, 16, 17, 15, 70]),
        (&[-34], &[63, -12]),
    ],
    target: 13,
    asked: Kind::Infinite,
    verdict: ClaimVerdict::Verified,
};

// The formula holds neither at a last state nor before a state where it does not.
const ENDING: Row = Row {
    text: "G X p",
    kind: Kind::Finite,
    layers: &[ENDING_LAYER],
    close: &[(&[-12], &[15, 18])],
    target: 3,
    asked: Kind::Finite,
    verdict: ClaimVerdict::Verified,
};

const ENDING_LAYER: LayerRow = LayerRow {
    eventuality: None,
    claims: &[&[-4]],
    base_lines: &[(&[-4, -13], &[2, 16])],
    base_targets: &[1],
    step_lines: &[(&[-4, -11], &[1, 3, 13, 17])],
    step_targets: &[2],
};

// No first state has the formula.
const BEFORE_ALL: Row = Row {
    text: "Y p",
    kind: Kind::Finite,
    layers: &[],
    close: &[(&[-6], &[3, 4])],
    target: 1,
    asked: Kind::Finite,
    verdict: ClaimVerdict::Verified,
};

const ROWS: &[Row] = &[
    NEVER,
    LAYERS,
    ENDING,
    BEFORE_ALL,
    Row {
        asked: Kind::Finite,
        verdict: ClaimVerdict::Refused(CertificateFault::Kind),
        ..NEVER
    },
    // The claim without one of its literals, and without an eventuality.
    Row {
        layers: &[LayerRow {
            claims: &[&[-5]],
            ..NEVER_BOTH
        }],
        verdict: ClaimVerdict::Refused(CertificateFault::Layer(1, LayerFault::BaseTarget(1))),
        ..NEVER
    },
    Row {
        layers: &[LayerRow {
            eventuality: None,
            ..NEVER_BOTH
        }],
        verdict: ClaimVerdict::Refused(CertificateFault::Layer(1, LayerFault::BaseTarget(1))),
        ..NEVER
    },
    // An eventuality that is none of the formula's, and a claim that has a letter of the next state.
    Row {
        layers: &[LayerRow {
            eventuality: Some(1),
            ..NEVER_BOTH
        }],
        verdict: ClaimVerdict::Refused(CertificateFault::Layer(1, LayerFault::Eventuality)),
        ..NEVER
    },
    Row {
        layers: &[LayerRow {
            claims: &[&[-5, -10], &[-5, -12]],
            ..NEVER_BOTH
        }],
        verdict: ClaimVerdict::Refused(CertificateFault::Layer(1, LayerFault::Claim(2))),
        ..NEVER
    },
    // The step names the claim at the state itself; its target is another line.
    Row {
        layers: &[LayerRow {
            step_lines: &[
                (&[-20, -15], &[20, 32, 33, 31, 47, 25]),
                (&[-10, -5], &[48]),
            ],
            ..NEVER_BOTH
        }],
        verdict: ClaimVerdict::Refused(CertificateFault::Layer(1, LayerFault::StepLine(2))),
        ..NEVER
    },
    Row {
        layers: &[LayerRow {
            step_targets: &[3],
            ..NEVER_BOTH
        }],
        verdict: ClaimVerdict::Refused(CertificateFault::Layer(1, LayerFault::StepTarget(1))),
        ..NEVER
    },
    // The layers in the other order.
    Row {
        layers: &[NOT_BOTH, NOT_DUE],
        verdict: ClaimVerdict::Refused(CertificateFault::Layer(1, LayerFault::BaseLine(1))),
        ..LAYERS
    },
    Row {
        close: &[
            (&[-11], &[1, 17, 18, 7, 13, 14, 12, 48, 6]),
            (&[-24], &[45]),
        ],
        verdict: ClaimVerdict::Refused(CertificateFault::Line(2)),
        ..NEVER
    },
    Row {
        target: 5,
        verdict: ClaimVerdict::Refused(CertificateFault::Target),
        ..NEVER
    },
];

fn verdict_of(rt: &impl Abort, alloc: Global, row: &Row) -> ClaimVerdict {
    let (table, root) = formula(rt, alloc, row.text);
    assert!(rt; root < table.len());
    let closure = Closure::of(alloc, &table, root, row.asked).expect(rt, "memory");
    let certificate = certificate(rt, alloc, row.kind, row.layers, row.close, row.target);
    check(alloc, &closure, row.asked, &certificate).expect(rt, "memory")
}

#[test]
fn worked_certificates(rt: HostRuntime) {
    for row in ROWS {
        assert!(rt; verdict_of(&rt, rt.alloc(), row) == row.verdict);
    }
}
