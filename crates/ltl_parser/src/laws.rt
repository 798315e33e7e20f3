//! What holds of every token list, of every text and of every formula, of any length.
ghost use Rattle.std.specs.Prelude.{◌≡◌, ◌↔◌, ◌⊎◌, List, ℕ, None};
ghost use Rattle.ltl_lexer.specs.declared.token.Token.{Token};
ghost use Rattle.ltl_lexer.specs.Tokens.{AreTokens, IsLexicalFault};
ghost use Rattle.ltl_syntax.specs.Formula.{Formula, HasNoFresh};
ghost use Rattle.ltl_syntax.specs.Size.{formula_size};
ghost use Rattle.ltl_syntax.specs.Print.{text_of};
ghost use Rattle.ltl_parser.specs.Grammar.{Symbol, Reads, fault};
ghost use Rattle.ltl_parser.specs.Text.{ReadsText, IsGrammarFault, NodesOf, IsPrintable};

/// A token list has at most one reading.
pub fn one_reading()
    ensures { (ts : List Symbol) (f g : Formula) → Reads ts f → Reads ts g → f ≡ g }
{}

/// It has one exactly where the walk meets no fault.
pub fn read_without_fault()
    ensures { (ts : List Symbol) → ((f : Formula) × Reads ts f) ↔ (fault ts ≡ None) }
{}

/// A text has a lexical fault, a grammar fault or a formula, and not two of them.
pub fn one_outcome()
    ensures one_lexical_fault { (text : List ℕ) (a b : ℕ) → IsLexicalFault text a → IsLexicalFault text b
        → a ≡ b }
    ensures one_grammar_fault { (text : List ℕ) (a b : ℕ) → IsGrammarFault text a → IsGrammarFault text b
        → a ≡ b }
    ensures one_formula { (text : List ℕ) (f g : Formula) → ReadsText text f → ReadsText text g → f ≡ g }

    ensures lexical_not_grammar { (text : List ℕ) (a b : ℕ) → IsLexicalFault text a → IsGrammarFault text b
        → ⊥ }
    ensures lexical_not_read { (text : List ℕ) (a : ℕ) (f : Formula) → IsLexicalFault text a
        → ReadsText text f → ⊥ }
    ensures grammar_not_read { (text : List ℕ) (a : ℕ) (f : Formula) → IsGrammarFault text a
        → ReadsText text f → ⊥ }

    ensures read_or_fault { (text : List ℕ) (ts : List Token) → AreTokens 0 text ts None
        → ((f : Formula) × ReadsText text f) ⊎ ((byte : ℕ) × IsGrammarFault text byte) }
    ensures some_outcome { (text : List ℕ) → ((byte : ℕ) × IsLexicalFault text byte)
        ⊎ (((byte : ℕ) × IsGrammarFault text byte) ⊎ ((f : Formula) × ReadsText text f)) }
{}

/// The sizes of the tokens of a text other than parentheses add up to the size of its formula.
pub fn nodes_of_text()
    ensures one_count { (text : List ℕ) (m n : ℕ) → NodesOf text m → NodesOf text n → m ≡ n }
    ensures nodes { (text : List ℕ) (f : Formula) → ReadsText text f → NodesOf text (formula_size f) }
{}

/// The printed text of a formula reads as it and as no other, and every formula that a text reads as is such
/// a formula.
pub fn printed_text()
    ensures reads { (f : Formula) → IsPrintable f → ReadsText (text_of f) f }
    ensures only { (f g : Formula) → IsPrintable f → ReadsText (text_of f) g → f ≡ g }
    ensures printable { (text : List ℕ) (f : Formula) → ReadsText text f → IsPrintable f }
{}

/// A formula that a text reads as has no fresh letters.
pub fn no_fresh()
    ensures { (text : List ℕ) (f : Formula) → ReadsText text f → HasNoFresh f }
{}
