// The answer whose certificate is asked for: the first one that says that there is no trace. A conflict is
// about its members.
ghost use Rattle.std.specs.Prelude.{◌≡◌, ◌↔◌, true, MatchOption, Contains};
ghost use Rattle.requirement_questions.specs.Members.{places};
ghost use Rattle.requirement_answers.specs.declared.asking.Asking.{Asking};
ghost use Rattle.requirement_certificate.specs.Chosen.{IsAbout, IsFirstConflict, HasNoConflict, IsFirstReply};
ghost use Rattle.requirement_certificate.specs.Chosen.{HasNoReply, IsFirstBecause, HasNoBecause};
ghost use Rattle.requirement_certificate.specs.Text.{HasFormula, HaveFormulas};

use requirement_answers::{Report, Scope};
use requirement_questions::{Because, Member, QuestionAnswer};

/// The first answer of the report that says that there is no trace.
pub fn first_because(report: &Report, scope: Scope) -> Option<&Because>
    requires { HaveFormulas report.now }
    ensures first { MatchOption result (HasNoBecause report.now scope)
        (λ b. (asking : Asking) × IsFirstBecause report.now scope asking b.now) }
    ensures there { MatchOption result Unit (λ b. HasFormula b.now) }
{
    if let Some(because) = first_conflict(report, scope) {
        return Some(because);
    }
    first_reply(report)
}

/// The first conflict that is about what the scope names.
fn first_conflict(report: &Report, scope: Scope) -> Option<&Because>
    ensures { MatchOption result (HasNoConflict report.now scope)
        (λ b. IsFirstConflict report.now scope b.now) }
{
    'conflicts: for place in 0..report.conflicts.len() {
        let because = &*report.conflicts[place];
        if is_about(scope, &because.members) {
            return Some(because);
        }
    }
    None
}

/// Whether a conflict with these members is about what the scope names.
fn is_about(scope: Scope, members: &[Member]) -> bool
    ensures { (result ≡ true) ↔ IsAbout scope members.now }
{
    match scope {
        Scope::All => true,
        Scope::Item(item) => has_member(members, item),
        Scope::Behaviour(_) => false,
    }
}

/// Whether the item is one of the members.
fn has_member(members: &[Member], item: u32) -> bool
    ensures { (result ≡ true) ↔ Contains (places members.now) item }
{
    'members: for place in 0..members.len() {
        if members[place].given == item {
            return true;
        }
    }
    false
}

/// The first further answer that says that there is no trace.
fn first_reply(report: &Report) -> Option<&Because>
    ensures { MatchOption result (HasNoReply report.now)
        (λ b. (asking : Asking) × IsFirstReply report.now asking b.now) }
{
    'replies: for place in 0..report.replies.len() {
        if let QuestionAnswer::Cannot(because) = &report.replies[place].answer {
            return Some(&**because);
        }
    }
    None
}
