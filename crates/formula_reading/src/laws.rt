//! What texts read as. The function calls the law that it stands on: its contract is the law, and a proof
//! cites it by a call.
ghost use Rattle.std.specs.Prelude.{◌≡◌, ◌⊎◌, List, ℕ};
ghost use Rattle.ltl_syntax.specs.Formula.{Formula};
ghost use Rattle.ltl_parser.specs.Text.{IsAccepted};
ghost use Rattle.formula_reading.specs.declared.reading.FormulaFault.{FormulaFault};
ghost use Rattle.formula_reading.specs.Reading.{HasFormulaFault};

/// A text has an accepted formula or a fault, one of them, and not both.
pub fn one_reading()
    ensures one_formula { (text : List ℕ) (f g : Formula) → IsAccepted text f → IsAccepted text g → f ≡ g }
    ensures one_fault { (text : List ℕ) (a b : FormulaFault) → HasFormulaFault text a
        → HasFormulaFault text b → a ≡ b }
    ensures not_both { (text : List ℕ) (fault : FormulaFault) (f : Formula) → HasFormulaFault text fault
        → IsAccepted text f → ⊥ }
    ensures some { (text : List ℕ) → ((f : Formula) × IsAccepted text f)
        ⊎ ((fault : FormulaFault) × HasFormulaFault text fault) }
{
    ltl_parser::laws::one_outcome();
}
