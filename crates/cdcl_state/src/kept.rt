// Marks under the numbers of lines, and which clauses they keep.
ghost use Rattle.std.specs.Prelude.{◌≡◌, ℕ, true, false, slice_index_or};
ghost use Rattle.cdcl_trail.specs.Entries.{hint_of};
ghost use Rattle.cnf_base.specs.declared.literal.Hint.TheVariants.{Clause};

use cdcl_trail::decode_hint;
use cnf_base::Hint;

/// Whether the line is marked. The marks stand under the lines' numbers, which begin at 1; behind the last
/// mark no line is marked.
pub fn is_marked(marks: &[bool], line: u64) -> bool
    ensures { result ≡ slice_index_or marks.now line false }
{
    (line as usize) < marks.len() && marks[line as usize]
}

/// Whether the clause of this name is kept. Each input is, and each line that is marked.
pub fn stays(kept: &[bool], name: u32) -> bool
    ensures { (n : ℕ) → hint_of name ≡ Clause n → result ≡ true }
{
    match decode_hint(name) {
        Hint::Clause(_) => true,
        Hint::Line(line) => is_marked(kept, line),
    }
}
