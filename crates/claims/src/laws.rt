//! Laws of claims. Each function is empty: its contract is the law, and a proof cites it by a call.
//!
//! Each layer of claims is proved backwards: its claims hold at a last state, or before each state that meets
//! the layer's eventuality, and at each state whose next state has them; so they hold everywhere. In the end
//! no state is left that could be a first one. Layers are invariants, each relative to those before it, as in
//! Bradley's IC3 (2011), and stand where k-liveness counts (Claessen and Sorensson 2012).
ghost use Rattle.claims.specs.Laws.{LettersAreKnown, NamedAreKnown, NextAreKnown, LinesGrow, LayersGrow};
ghost use Rattle.claims.specs.Laws.{LayerLinesGrow, StatesMakeSteps, StepsShowStates, RunsAreSequences};
ghost use Rattle.claims.specs.Laws.{RunsEnd, RunsUnroll, EndlessKeepClaims, EndingKeepClaims};
ghost use Rattle.claims.specs.Laws.{LawfulHasNoTrace};
ghost use Rattle.claims.specs.Worked.{WorkedCertificates};

/// Each letter of what may be named is known, and what may be named grows line by line and layer by layer.
pub fn lists()
    ensures known { LettersAreKnown }
    ensures named { NamedAreKnown }
    ensures next { NextAreKnown }
    ensures line { LinesGrow }
    ensures layer { LayersGrow }
    ensures layer_lines { LayerLinesGrow }
{}

/// A state and the next one make the list of a step true, and what makes it true gives two such states.
pub fn steps()
    ensures made { StatesMakeSteps }
    ensures shown { StepsShowStates }
{}

/// Runs as sequences of states.
pub fn sequences()
    ensures linked { RunsAreSequences }
    ensures ending { RunsEnd }
    ensures unrolled { RunsUnroll }
{}

/// The claims of lawful layers hold at each state of a sequence, wherever it begins.
pub fn claims_hold()
    ensures endless { EndlessKeepClaims }
    ensures ending { EndingKeepClaims }
{}

/// A lawful certificate means that no trace of the kind satisfies the formula.
pub fn nothing_satisfies()
    ensures { LawfulHasNoTrace }
{}

/// Certificates that were worked by hand, and some that are spoiled.
pub fn worked_certificates()
    ensures { WorkedCertificates }
{}
