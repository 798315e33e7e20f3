//! What holds of the tokens of every text, of any length.
ghost use Rattle.std.specs.Prelude.{◌≡◌, ◌∷◌, List, ℕ, Option, IsUtf8};
ghost use Rattle.std.specs.List.{All};
ghost use Rattle.ltl_lexer.specs.declared.token.Token.{Token};
ghost use Rattle.ltl_lexer.specs.declared.token.TokenKind.TheVariants as kinds;
ghost use Rattle.ltl_lexer.specs.declared.token.UnaryWord.{UnaryWord};
ghost use Rattle.ltl_lexer.specs.Tokens.{AreTokens, HasNumbers, IsPartOf, IsWord, Spells};

/// Each text, of bytes or of other numbers, has a list of tokens, up to its first fault where it has one.
pub fn some_list()
    ensures { (text : List ℕ) → (ts : List Token) × (f : Option ℕ) × AreTokens 0 text ts f }
{}

/// A text has one list of tokens, and one fault at most.
pub fn one_list()
    ensures { (text : List ℕ) (ts us : List Token) (f g : Option ℕ) → AreTokens 0 text ts f
        → AreTokens 0 text us g → (ts ≡ us) × (f ≡ g) }
{}

/// Each token of a text is a part of it, and the bytes of this part spell the token's kind.
pub fn parts_of_text()
    ensures { (text : List ℕ) (ts : List Token) (f : Option ℕ) → AreTokens 0 text ts f
        → All (IsPartOf text) ts }
{}

/// A word is text, and no name of a letter that has a number in place of a name: those are printed in braces.
pub fn words()
    ensures text { (bytes : List ℕ) → IsWord bytes → IsUtf8 bytes }
    ensures no_brace { (rest : List ℕ) → IsWord (123 ∷ rest) → ⊥ }
{}

/// The numbers of a bounded operator are at most 255, and of two the first is not above the second.
pub fn numbers_of_operators()
    ensures { (bytes : List ℕ) (word : UnaryWord) → Spells bytes (kinds.Unary word) → HasNumbers word }
{}
