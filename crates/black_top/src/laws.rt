//! Laws of the definitions: the contract of each function is the law.
ghost use Rattle.std.specs.Prelude.{◌≡◌, ◌≤◌, ℕ, List, length, Option, Some};
ghost use Rattle.cert_check.specs.declared.verdict.Verdict.TheVariants.{Verified};
ghost use Rattle.command_words.specs.Words.{Setting, Solve, Check, System, Asks, kind_of};
ghost use Rattle.ltl_parser.specs.Text.{IsAccepted};
ghost use Rattle.report.specs.Texts.{Proof};
ghost use Rattle.black_top.specs.Answer.{Answer, AreAlike, unsat, checked, paths_hold};
ghost use Rattle.black_top.specs.Check.{with_certificate};
ghost use Rattle.black_top.specs.Run.{IsAnswer};
ghost use Rattle.black_top.specs.Laws.{AnswerIsThere};
ghost use Rattle.black_top.specs.Workers.{WorkersAreFree};
ghost use Rattle.ltl_syntax.specs.declared.node.Kind.TheVariants as kinds;
ghost use Rattle.ltl_syntax.specs.Formula.{Formula};
ghost use Rattle.ltl_syntax.specs.Size.{formula_size};
ghost use Rattle.ltl_word.specs.declared.trace.Trace.{Trace};
ghost use Rattle.ltl_word.specs.Trace.{IsTrace};
ghost use Rattle.depast.specs.Depast.{depast};
ghost use Rattle.depast.specs.Lifting.{IsLifted};
ghost use Rattle.black_top.specs.Depast.{IsReadAgain, IsSound, KeepsTruth};

/// Words and bytes have one answer, but for the trace that is shown and the text of the certificate. The core
/// that is shown with UNSAT is one, and so is the formula that is shown with HOLDS.
pub fn one_answer()
    ensures { (words : List (List ℕ)) (bytes : List ℕ) (a b : Answer)
        → IsAnswer words bytes a → IsAnswer words bytes b → AreAlike a b }
{
    ltl_parser::laws::one_outcome();
    ltl_word::laws::one_reading();
    ltl_run::laws::one_verdict();
    cert_check::laws::answers();
    core_extract::laws::core_is_one();
    batch_run::laws::one_list();
    past_monitor::laws::one_answer();
}

/// Words have an answer to any bytes, or they ask for a certificate of a refuted formula of which each
/// refutation has more lines than a certificate can number. That it has one at all is a law of `completeness`.
pub fn some_answer()
    ensures { AnswerIsThere }
{
    command_words::laws::asks_or_not();
    ltl_lexer::laws::words();
    ltl_parser::laws::one_outcome();
    ltl_parser::laws::printed_text();
    ltl_word::laws::some_reading();
    ltl_word::laws::decided();
    ltl_run::laws::one_verdict();
    ltl_run::laws::run_satisfies();
    ltl_run::laws::traces_of_runs();
    unravel::laws::verdict_exists();
    core_extract::laws::core_exists();
    completeness::laws::some_refutation();
    completeness::laws::some_trimmed();
    cert_text::laws::texts();
    log_checker::laws::judging();
    cert_check::laws::answers();
    cert_check::laws::trimmed();
    depast::laws::few_names();
    depast::laws::lifting();
}

/// What `solve --cert` prints, `check` with the same kind verifies behind the text of the formula and a
/// separator line.
pub fn printed_certificates_verify()
    ensures { (solve check : List (List ℕ)) (asked also : List Setting) (text certificate : List ℕ)
        (depth : ℕ) (core : Option (List ℕ))
        → Asks solve (Solve asked) → Asks check (Check also) → kind_of asked ≡ kind_of also
        → IsAnswer solve text (unsat depth core (Some certificate))
        → IsAnswer check (with_certificate text certificate) (checked Verified) }
{}

/// The certificate that `system --cert` prints `check` verifies, behind the formula that it prints and a
/// separator line, unless this formula is longer than a formula's text may be.
pub fn printed_systems_verify()
    ensures { (system check : List (List ℕ)) (asked also : List Setting) (bytes : List ℕ) (depth : ℕ)
        (proof : Proof) → Asks system (System asked) → Asks check (Check also)
        → kind_of also ≡ kinds.Infinite → length proof.formula ≤ 1048576
        → IsAnswer system bytes (paths_hold depth (Some proof))
        → IsAnswer check (with_certificate proof.formula proof.certificate) (checked Verified) }
{}

/// Words that ask for the same command, and for the same of all but the workers, have the same answers.
pub fn workers_change_no_answer()
    ensures { WorkersAreFree }
{}

/// What `depast` prints reads as the formula that it is, which has no past operator, and a trace of a kind
/// exactly where the formula has one; a lifted trace keeps what is true.
pub fn past_removed()
    ensures sound { (f : Formula) → formula_size (depast f) ≤ 16384 → IsSound f }
    ensures reads { (part : List ℕ) (f : Formula) → IsAccepted part f → IsReadAgain f }
    ensures kept { (f : Formula) (t u : Trace) → IsTrace t → IsLifted f t u → KeepsTruth f t u }
{
    depast::laws::without_past();
    depast::laws::few_names();
    depast::laws::lifting();
    depast::laws::lowering();
    depast::laws::equisatisfiable();
}
