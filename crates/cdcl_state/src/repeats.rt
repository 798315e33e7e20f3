// Whether a letter stands in a clause twice, in time linear in the clause: its letters are marked one after
// another.
ghost use Rattle.std.specs.Prelude.{◌≡◌, ℕ, ◌<◌, length, All, true, false};
ghost use Rattle.cdcl_watches.specs.Watching.{AreApart};
ghost use Rattle.cdcl_analyze.specs.Marks.{IsMarked};
ghost use Rattle.cdcl_state.specs.State.{HasLettersOnce};

use cdcl_analyze::Marks;
use cnf_base::Literal;

/// Marks the letters of the clause up to the first that is marked already, and says whether there is one.
fn meets_marked(marks: &mut Marks, clause: &[Literal]) -> bool
    requires known { All (λ l. l.letter.0 < length marks.old.stamps) clause.now }
    requires fresh { (x : ℕ) → ¬ IsMarked marks.old x }
    ensures size { length marks.new.stamps ≡ length marks.old.stamps }
    ensures apart { result ≡ false → AreApart clause.now }
    ensures once { result ≡ false → HasLettersOnce clause.now }
    ensures twice { result ≡ true → ¬ HasLettersOnce clause.now }
{
    for literal in clause {
        let letter = literal.letter.0 as usize;
        if marks.has(letter) {
            return true;
        }
        marks.note(letter);
    }
    false
}

/// Whether some letter stands in the clause twice.
pub fn repeats(marks: &mut Marks, clause: &[Literal]) -> bool
    requires { All (λ l. l.letter.0 < length marks.old.stamps) clause.now }
    ensures size { length marks.new.stamps ≡ length marks.old.stamps }
    ensures apart { result ≡ false → AreApart clause.now }
    ensures once { result ≡ false → HasLettersOnce clause.now }
    ensures twice { result ≡ true → ¬ HasLettersOnce clause.now }
{
    marks.begin();
    meets_marked(marks, clause)
}
