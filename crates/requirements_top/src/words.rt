// The words behind the program's name, as `clap` reads them, and what they ask for: a report, a certificate,
// the letters of a document, or the help. What does not belong together is not taken.
ghost use Rattle.std.specs.Prelude.{◌≡◌, ℕ, true, false, None, Some, map, string_bytes, option_map, IfOk};
ghost use Rattle.std.specs.Prelude.{MatchOption};
ghost use Rattle.clap.specs.Words.{FailsBy, fault_of, first_value, found_of, kind_of, matches_of, rows_of};
ghost use Rattle.clap.specs.declared.error.kind.ErrorKind.TheVariants as kinds;
ghost use Rattle.requirements_top.specs.Words.{words_app, AreTaken, Face as AFace, Wanted, said_in, Says};
ghost use Rattle.requirements_top.specs.Words.{Asks};
ghost use Rattle.requirements_top.specs.Words.{IsFace, AreSteps, AreWorkers, AsksFor, Work as AWork};
ghost use Rattle.requirements_top.specs.Words.{is_true};
ghost use Rattle.requirements_top.specs.Said.{said_of, face_of, work_of, wanted_of, is_bare, is_formless};
ghost use Rattle.requirements_top.specs.Said.{is_workless, said_in_matches};

use clap::error::ErrorKind;
use clap::{ArgMatches, Command, Error};
use command_words::{Range, STEPS, decimal_number, flag, valued};
use requirement_answers::Effort;
use requirement_questions::{DEFAULT_STEPS, Limits};
use std::alloc::{AllocError, Global};

/// The number of `--workers`.
const WORKERS: Range = Range {
    digits: 2,
    low: 1,
    high: 16,
};

/// What the words ask for.
#[derive(Clone, Copy)]
pub enum Asked<'w> {
    Help,
    /// Something about the document.
    Of(Query<'w>),
}

/// What is asked of a document.
#[derive(Clone, Copy)]
pub enum Query<'w> {
    Letters,
    About(Request<'w>),
    /// The certificate of the first answer about what has the name that says that there is no trace.
    Certificate { name: &'w str, work: Work },
}

/// A report that is asked for, or what of it is about one item or behaviour.
#[derive(Clone, Copy)]
pub struct Request<'w> {
    pub face: Face,
    pub only: Option<&'w str>,
    pub work: Work,
}

/// How the questions are answered, and whether a line is written for each.
#[derive(Clone, Copy)]
pub struct Work {
    pub effort: Effort,
    pub progress: bool,
}

/// The form of a report.
#[derive(Clone, Copy)]
pub enum Face {
    Text,
    Json,
    Page,
}

/// Which options stand there, and with which texts.
#[derive(Clone, Copy)]
pub struct Said<'w> {
    help: bool,
    letters: bool,
    json: bool,
    html: bool,
    progress: bool,
    only: Option<&'w str>,
    cert: Option<&'w str>,
    steps: Option<&'w str>,
    workers: Option<&'w str>,
}

/// What the words ask for. None where they are not taken.
pub fn asked_for<'w>(alloc: Global, words: &'w [String]) -> Result<Option<Asked<'w>>, AllocError>
    ensures { IfOk result (λ asked. MatchOption asked
        ((wanted : Wanted) → ¬ (Asks (map string_bytes words.now) wanted))
        (λ asked. Asks (map string_bytes words.now) (wanted_of asked))) }
{
    match options_said(alloc, words)? {
        Some(said) => Ok(asked_by(said)),
        None => Ok(None),
    }
}

/// What is asked for by these options.
fn asked_by<'w>(said: Said<'w>) -> Option<Asked<'w>>
    ensures { MatchOption result ((wanted : Wanted) → ¬ (Says (said_of said.entry) wanted))
        (λ asked. Says (said_of said.entry) (wanted_of asked)) }
{
    if said.help {
        return help_asked(said);
    }
    if said.letters {
        return letters_asked(said);
    }
    match said.cert {
        Some(name) => certificate_asked(said, name),
        None => request_asked(said),
    }
}

/// The help, where nothing stands beside `--help`.
#[tactic(auto, using(crate::proofs::Wording::help_alone, crate::proofs::Wording::not_help, crate::proofs::Wording::not_both))]
fn help_asked<'w>(said: Said<'w>) -> Option<Asked<'w>>
    requires { said.help ≡ true }
    ensures { MatchOption result ((wanted : Wanted) → ¬ (Says (said_of said.entry) wanted))
        (λ asked. Says (said_of said.entry) (wanted_of asked)) }
{
    if said.letters {
        return None;
    }
    if is_bare(said) {
        return Some(Asked::Help);
    }
    None
}

/// The letters, where nothing stands beside `--letters`.
#[tactic(auto, using(crate::proofs::Wording::letters_alone, crate::proofs::Wording::not_letters))]
fn letters_asked<'w>(said: Said<'w>) -> Option<Asked<'w>>
    requires help { said.help ≡ false }
    requires letters { said.letters ≡ true }
    ensures { MatchOption result ((wanted : Wanted) → ¬ (Says (said_of said.entry) wanted))
        (λ asked. Says (said_of said.entry) (wanted_of asked)) }
{
    if is_bare(said) {
        return Some(Asked::Of(Query::Letters));
    }
    None
}

/// Whether nothing is said of a report, nor of a certificate.
fn is_bare(said: Said<'_>) -> bool
    ensures { result ≡ is_bare (said_of said.entry) }
{
    is_formless(said) && is_workless(said) && said.cert.is_none()
}

/// Whether no form is said, and no name.
fn is_formless(said: Said<'_>) -> bool
    ensures { result ≡ is_formless (said_of said.entry) }
{
    !said.json && !said.html && said.only.is_none()
}

/// Whether nothing is said of how the questions are answered.
fn is_workless(said: Said<'_>) -> bool
    ensures { result ≡ is_workless (said_of said.entry) }
{
    !said.progress && said.steps.is_none() && said.workers.is_none()
}

/// A report, where one form is asked for, and the steps and the workers are numbers.
#[tactic(auto, using(crate::proofs::Wording::no_face, crate::proofs::Wording::no_report))]
fn request_asked<'w>(said: Said<'w>) -> Option<Asked<'w>>
    requires help { said.help ≡ false }
    requires letters { said.letters ≡ false }
    requires cert { said.cert ≡ None }
    ensures { MatchOption result ((wanted : Wanted) → ¬ (Says (said_of said.entry) wanted))
        (λ asked. Says (said_of said.entry) (wanted_of asked)) }
{
    let Some(face) = face_said(said.json, said.html) else {
        return None;
    };
    match work_of(said) {
        Some(work) => Some(Asked::Of(Query::About(Request {
            face,
            only: said.only,
            work,
        }))),
        None => None,
    }
}

/// The certificate about the name, where neither a form nor another name is said.
#[tactic(auto, using(crate::proofs::Wording::certified_so, crate::proofs::Wording::not_formless, crate::proofs::Wording::no_certificate))]
fn certificate_asked<'w>(said: Said<'w>, name: &'w str) -> Option<Asked<'w>>
    requires help { said.help ≡ false }
    requires letters { said.letters ≡ false }
    requires cert { said.cert ≡ Some name }
    ensures { MatchOption result ((wanted : Wanted) → ¬ (Says (said_of said.entry) wanted))
        (λ asked. Says (said_of said.entry) (wanted_of asked)) }
{
    if !is_formless(said) {
        return None;
    }
    match work_of(said) {
        Some(work) => Some(Asked::Of(Query::Certificate { name, work })),
        None => None,
    }
}

/// How the questions are to be answered.
#[tactic(auto, using(crate::proofs::Wording::no_steps, crate::proofs::Wording::no_workers))]
fn work_of(said: Said<'_>) -> Option<Work>
    ensures { MatchOption result ((work : AWork) → ¬ (AsksFor (said_of said.entry) work))
        (λ work. AsksFor (said_of said.entry) (work_of work)) }
{
    let Some(limits) = limits_of(said.steps) else {
        return None;
    };
    match workers_of(said.workers) {
        Some(workers) => Some(Work {
            effort: Effort { limits, workers },
            progress: said.progress,
        }),
        None => None,
    }
}

/// The form that is asked for, where it is one.
fn face_said(json: bool, html: bool) -> Option<Face>
    ensures { MatchOption result ((face : AFace) → ¬ (IsFace json html face))
        (λ face. IsFace json html (face_of face)) }
{
    match (json, html) {
        (false, false) => Some(Face::Text),
        (true, false) => Some(Face::Json),
        (false, true) => Some(Face::Page),
        (true, true) => None,
    }
}

/// How long a question is tried.
fn limits_of(digits: Option<&str>) -> Option<Limits>
    ensures { MatchOption result ((n : ℕ) → ¬ (AreSteps (option_map (λ t. t.now) digits.entry) n))
        (λ limits. AreSteps (option_map (λ t. t.now) digits.entry) limits.steps) }
{
    let steps = match digits {
        Some(digits) => decimal_number(digits.as_bytes(), STEPS)?,
        None => DEFAULT_STEPS,
    };
    Some(Limits { steps })
}

/// How many workers answer the questions.
fn workers_of(digits: Option<&str>) -> Option<u32>
    ensures { MatchOption result ((n : ℕ) → ¬ (AreWorkers (option_map (λ t. t.now) digits.entry) n))
        (AreWorkers (option_map (λ t. t.now) digits.entry)) }
{
    match digits {
        Some(digits) => decimal_number(digits.as_bytes(), WORKERS),
        None => Some(1),
    }
}

/// What the words say of options. None where they are not taken.
fn options_said<'w>(alloc: Global, words: &'w [String]) -> Result<Option<Said<'w>>, AllocError>
    ensures { IfOk result (λ said. MatchOption said (¬ (AreTaken (map string_bytes words.now)))
        (λ said. AreTaken (map string_bytes words.now)
        × (said_of said ≡ said_in (map string_bytes words.now)))) }
{
    match matched(alloc, words)? {
        Some(matches) => Ok(Some(said_by(&matches))),
        None => Ok(None),
    }
}

/// What the matches say.
fn said_by<'w>(matches: &ArgMatches<'w>) -> Said<'w>
    ensures { said_of result ≡ said_in_matches (found_of matches.now) }
{
    Said {
        help: is_there(matches, "help"),
        letters: is_there(matches, "letters"),
        json: is_there(matches, "json"),
        html: is_there(matches, "html"),
        progress: is_there(matches, "progress"),
        only: matches.get_str("only"),
        cert: matches.get_str("cert"),
        steps: matches.get_str("steps"),
        workers: matches.get_str("workers"),
    }
}

/// Whether the option without a text is there.
fn is_there(matches: &ArgMatches<'_>, id: &str) -> bool
    ensures { result ≡ is_true (first_value (found_of matches.now) id.now) }
{
    match matches.get_str(id) {
        Some(text) => text == "true",
        None => false,
    }
}

/// The options that stand there. None where the words are not taken.
fn matched<'w>(alloc: Global, words: &'w [String]) -> Result<Option<ArgMatches<'w>>, AllocError>
    ensures { IfOk result (λ matches. MatchOption matches (¬ (AreTaken (map string_bytes words.now)))
        (λ m. AreTaken (map string_bytes words.now)
        × (rows_of (found_of m) ≡ matches_of words_app (map string_bytes words.now)))) }
{
    match parsed(alloc, words) {
        Ok(matches) => Ok(Some(matches)),
        Err(error) => {
            if is_no_memory(&error) {
                return Err(AllocError);
            }
            Ok(None)
        }
    }
}

/// Whether it is want of memory.
fn is_no_memory(error: &Error) -> bool
    ensures { result ≡ false → kind_of error.now ≡ kinds.OutOfMemory → ⊥ }
{
    match error.kind() {
        ErrorKind::OutOfMemory => true,
        _ => false,
    }
}

/// `clap`'s matches of the words.
fn parsed<'w>(alloc: Global, words: &'w [String]) -> Result<ArgMatches<'w>, Error>
    ensures matches { IfOk result (λ m. rows_of (found_of m)
        ≡ matches_of words_app (map string_bytes words.now)) }
    ensures fails { FailsBy (fault_of words_app (map string_bytes words.now)) result }
{
    let options = Command::new(alloc, "black_requirements")
        .no_binary_name(true)
        .disable_help_flag(true)
        .disable_version_flag(true)
        .arg(flag(alloc, "help"))?
        .arg(flag(alloc, "letters"))?
        .arg(flag(alloc, "json"))?
        .arg(flag(alloc, "html"))?
        .arg(flag(alloc, "progress"))?
        .arg(valued(alloc, "only"))?
        .arg(valued(alloc, "cert"))?
        .arg(valued(alloc, "steps"))?
        .arg(valued(alloc, "workers"))?;
    options.try_get_matches_from(words)
}
