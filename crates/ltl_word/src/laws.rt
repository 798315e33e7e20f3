//! Laws of where formulas hold. Each function is empty: its contract is the law, and a proof cites it by a
//! call.
ghost use Rattle.std.specs.Prelude.{ℕ, suc, Bool, true, false, not};
ghost use Rattle.ltl_syntax.specs.Formula.{Formula, Const, Unary, Binary};
ghost use Rattle.ltl_syntax.specs.declared.node.UnaryOp.TheVariants.{Always, AlwaysIn, Eventually};
ghost use Rattle.ltl_syntax.specs.declared.node.UnaryOp.TheVariants.{EventuallyIn, Historically};
ghost use Rattle.ltl_syntax.specs.declared.node.UnaryOp.TheVariants.{HistoricallyIn, Next, NextTimes, Not};
ghost use Rattle.ltl_syntax.specs.declared.node.UnaryOp.TheVariants.{Once, OnceIn, WeakNext, WeakYesterday};
ghost use Rattle.ltl_syntax.specs.declared.node.UnaryOp.TheVariants.{Yesterday, YesterdayTimes};
ghost use Rattle.ltl_syntax.specs.declared.node.BinaryOp.TheVariants.{And, Iff, Implies, Or, Release, Since};
ghost use Rattle.ltl_syntax.specs.declared.node.BinaryOp.TheVariants.{StrongRelease, Trigger, Until};
ghost use Rattle.ltl_syntax.specs.declared.node.BinaryOp.TheVariants.{WeakUntil};
ghost use Rattle.ltl_word.specs.Laws.{IsPeriodic, EachIsDecided, AreEquivalent, AreEquivalentAtPositions};
ghost use Rattle.ltl_word.specs.Laws.{DependsOnState, DependsOnLetters, IsOneReading, EachIsRead};

/// On an infinite trace a formula repeats with the loop from some position on.
pub fn periodic()
    ensures { IsPeriodic }
{}

/// On a trace a formula holds at a number or it doesn't.
pub fn decided()
    ensures { EachIsDecided }
{}

/// Each temporal operator that looks further than one step, in terms of a position and its neighbour.
pub fn expansion()
    ensures until { (a b : Formula) → AreEquivalentAtPositions (Binary Until a b)
        (Binary Or b (Binary And a (Unary Next (Binary Until a b)))) }
    ensures release { (a b : Formula) → AreEquivalentAtPositions (Binary Release a b)
        (Binary And b (Binary Or a (Unary WeakNext (Binary Release a b)))) }
    ensures weak_until { (a b : Formula) → AreEquivalentAtPositions (Binary WeakUntil a b)
        (Binary And (Binary Or a b) (Binary Or b (Unary WeakNext (Binary WeakUntil a b)))) }
    ensures strong_release { (a b : Formula) → AreEquivalentAtPositions (Binary StrongRelease a b)
        (Binary Or (Binary And a b) (Binary And b (Unary Next (Binary StrongRelease a b)))) }
    ensures eventually { (a : Formula) → AreEquivalentAtPositions (Unary Eventually a)
        (Binary Or a (Unary Next (Unary Eventually a))) }
    ensures always { (a : Formula) → AreEquivalentAtPositions (Unary Always a)
        (Binary And a (Unary WeakNext (Unary Always a))) }
    ensures since { (a b : Formula) → AreEquivalent (Binary Since a b)
        (Binary Or b (Binary And a (Unary Yesterday (Binary Since a b)))) }
    ensures trigger { (a b : Formula) → AreEquivalent (Binary Trigger a b)
        (Binary And b (Binary Or a (Unary WeakYesterday (Binary Trigger a b)))) }
    ensures once { (a : Formula) → AreEquivalent (Unary Once a)
        (Binary Or a (Unary Yesterday (Unary Once a))) }
    ensures historically { (a : Formula) → AreEquivalent (Unary Historically a)
        (Binary And a (Unary WeakYesterday (Unary Historically a))) }
{}

/// Each bounded operator in terms of a position and its neighbour.
pub fn bounded_expansion()
    ensures next_here { (a : Formula) → AreEquivalentAtPositions (Unary (NextTimes 0) a) a }
    ensures next_later { (n : ℕ) (a : Formula) → AreEquivalent (Unary (NextTimes (suc n)) a)
        (Unary Next (Unary (NextTimes n) a)) }
    ensures yesterday_here { (a : Formula) → AreEquivalent (Unary (YesterdayTimes 0) a) a }
    ensures yesterday_earlier { (n : ℕ) (a : Formula) → AreEquivalent (Unary (YesterdayTimes (suc n)) a)
        (Unary Yesterday (Unary (YesterdayTimes n) a)) }
    ensures eventually_here { (a : Formula) → AreEquivalentAtPositions (Unary (EventuallyIn 0 0) a) a }
    ensures eventually_first { (n : ℕ) (a : Formula) → AreEquivalentAtPositions
        (Unary (EventuallyIn 0 (suc n)) a) (Binary Or a (Unary Next (Unary (EventuallyIn 0 n) a))) }
    ensures eventually_later { (m n : ℕ) (a : Formula)
        → AreEquivalent (Unary (EventuallyIn (suc m) (suc n)) a) (Unary Next (Unary (EventuallyIn m n) a)) }
    ensures always_here { (a : Formula) → AreEquivalentAtPositions (Unary (AlwaysIn 0 0) a) a }
    ensures always_first { (n : ℕ) (a : Formula) → AreEquivalentAtPositions (Unary (AlwaysIn 0 (suc n)) a)
        (Binary And a (Unary WeakNext (Unary (AlwaysIn 0 n) a))) }
    ensures always_later { (m n : ℕ) (a : Formula) → AreEquivalent (Unary (AlwaysIn (suc m) (suc n)) a)
        (Unary WeakNext (Unary (AlwaysIn m n) a)) }
    ensures once_here { (a : Formula) → AreEquivalent (Unary (OnceIn 0 0) a) a }
    ensures once_first { (n : ℕ) (a : Formula) → AreEquivalent (Unary (OnceIn 0 (suc n)) a)
        (Binary Or a (Unary Yesterday (Unary (OnceIn 0 n) a))) }
    ensures once_earlier { (m n : ℕ) (a : Formula) → AreEquivalent (Unary (OnceIn (suc m) (suc n)) a)
        (Unary Yesterday (Unary (OnceIn m n) a)) }
    ensures historically_here { (a : Formula) → AreEquivalent (Unary (HistoricallyIn 0 0) a) a }
    ensures historically_first { (n : ℕ) (a : Formula)
        → AreEquivalent (Unary (HistoricallyIn 0 (suc n)) a)
        (Binary And a (Unary WeakYesterday (Unary (HistoricallyIn 0 n) a))) }
    ensures historically_earlier { (m n : ℕ) (a : Formula)
        → AreEquivalent (Unary (HistoricallyIn (suc m) (suc n)) a)
        (Unary WeakYesterday (Unary (HistoricallyIn m n) a)) }
{}

/// The negation of each bounded operator.
pub fn bounded_duality()
    ensures next { (n : ℕ) (a : Formula) → AreEquivalent (Unary Not (Unary (NextTimes n) a))
        (Unary (AlwaysIn n n) (Unary Not a)) }
    ensures yesterday { (n : ℕ) (a : Formula) → AreEquivalent (Unary Not (Unary (YesterdayTimes n) a))
        (Unary (HistoricallyIn n n) (Unary Not a)) }
    ensures eventually { (m n : ℕ) (a : Formula) → AreEquivalent (Unary Not (Unary (EventuallyIn m n) a))
        (Unary (AlwaysIn m n) (Unary Not a)) }
    ensures always { (m n : ℕ) (a : Formula) → AreEquivalent (Unary Not (Unary (AlwaysIn m n) a))
        (Unary (EventuallyIn m n) (Unary Not a)) }
    ensures once { (m n : ℕ) (a : Formula) → AreEquivalent (Unary Not (Unary (OnceIn m n) a))
        (Unary (HistoricallyIn m n) (Unary Not a)) }
    ensures historically { (m n : ℕ) (a : Formula) → AreEquivalent (Unary Not (Unary (HistoricallyIn m n) a))
        (Unary (OnceIn m n) (Unary Not a)) }
{}

/// The operators that abbreviate others.
pub fn abbreviations()
    ensures eventually { (a : Formula) → AreEquivalent (Unary Eventually a) (Binary Until (Const true) a) }
    ensures always { (a : Formula) → AreEquivalent (Unary Always a) (Binary Release (Const false) a) }
    ensures weak_until { (a b : Formula) → AreEquivalent (Binary WeakUntil a b)
        (Binary Release b (Binary Or a b)) }
    ensures strong_release { (a b : Formula) → AreEquivalent (Binary StrongRelease a b)
        (Binary Until b (Binary And a b)) }
    ensures once { (a : Formula) → AreEquivalent (Unary Once a) (Binary Since (Const true) a) }
    ensures historically { (a : Formula) → AreEquivalent (Unary Historically a)
        (Binary Trigger (Const false) a) }
{}

/// The negation of each operator that joins formulas of one position.
pub fn propositional_duality()
    ensures constant { (b : Bool) → AreEquivalent (Unary Not (Const b)) (Const (not b)) }
    ensures negation { (a : Formula) → AreEquivalent (Unary Not (Unary Not a)) a }
    ensures and { (a b : Formula) → AreEquivalent (Unary Not (Binary And a b))
        (Binary Or (Unary Not a) (Unary Not b)) }
    ensures or { (a b : Formula) → AreEquivalent (Unary Not (Binary Or a b))
        (Binary And (Unary Not a) (Unary Not b)) }
    ensures implies { (a b : Formula) → AreEquivalent (Unary Not (Binary Implies a b))
        (Binary And a (Unary Not b)) }
    ensures iff { (a b : Formula) → AreEquivalent (Unary Not (Binary Iff a b)) (Binary Iff a (Unary Not b)) }
{}

/// The negation of each operator on the positions from one on.
pub fn future_duality()
    ensures next { (a : Formula) → AreEquivalent (Unary Not (Unary Next a)) (Unary WeakNext (Unary Not a)) }
    ensures weak_next { (a : Formula) → AreEquivalent (Unary Not (Unary WeakNext a))
        (Unary Next (Unary Not a)) }
    ensures eventually { (a : Formula) → AreEquivalent (Unary Not (Unary Eventually a))
        (Unary Always (Unary Not a)) }
    ensures always { (a : Formula) → AreEquivalent (Unary Not (Unary Always a))
        (Unary Eventually (Unary Not a)) }
    ensures until { (a b : Formula) → AreEquivalent (Unary Not (Binary Until a b))
        (Binary Release (Unary Not a) (Unary Not b)) }
    ensures release { (a b : Formula) → AreEquivalent (Unary Not (Binary Release a b))
        (Binary Until (Unary Not a) (Unary Not b)) }
    ensures weak_until { (a b : Formula) → AreEquivalent (Unary Not (Binary WeakUntil a b))
        (Binary StrongRelease (Unary Not a) (Unary Not b)) }
    ensures strong_release { (a b : Formula) → AreEquivalent (Unary Not (Binary StrongRelease a b))
        (Binary WeakUntil (Unary Not a) (Unary Not b)) }
{}

/// The negation of each operator on the positions up to one.
pub fn past_duality()
    ensures yesterday { (a : Formula) → AreEquivalent (Unary Not (Unary Yesterday a))
        (Unary WeakYesterday (Unary Not a)) }
    ensures weak_yesterday { (a : Formula) → AreEquivalent (Unary Not (Unary WeakYesterday a))
        (Unary Yesterday (Unary Not a)) }
    ensures once { (a : Formula) → AreEquivalent (Unary Not (Unary Once a))
        (Unary Historically (Unary Not a)) }
    ensures historically { (a : Formula) → AreEquivalent (Unary Not (Unary Historically a))
        (Unary Once (Unary Not a)) }
    ensures since { (a b : Formula) → AreEquivalent (Unary Not (Binary Since a b))
        (Binary Trigger (Unary Not a) (Unary Not b)) }
    ensures trigger { (a b : Formula) → AreEquivalent (Unary Not (Binary Trigger a b))
        (Binary Since (Unary Not a) (Unary Not b)) }
{}

/// A formula without temporal operators depends on its state alone, and there on its own letters.
pub fn propositional()
    ensures state { DependsOnState }
    ensures letters { DependsOnLetters }
{}

/// What bytes are read as is determined, so that each answer of `Trace::from_json` but want of memory comes
/// exactly where `IsReading` says.
pub fn one_reading()
    ensures { IsOneReading }
{}

/// Bytes have a reading that is not want of memory: a trace, or one of the four faults.
pub fn some_reading()
    ensures { EachIsRead }
{}
