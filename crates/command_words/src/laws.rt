//! Laws of the definitions: the contract of each function is the law.
ghost use Rattle.std.specs.Prelude.{◌≡◌, ◌⊎◌, ℕ, List};
ghost use Rattle.command_words.specs.Words.{Command, Asks};
ghost use Rattle.command_words.specs.Refutation.{RefutationAsked, AsksRefutation};

/// A list of words is taken as one command at most, with one list of settings and one number.
pub fn one_command()
    ensures { (words : List (List ℕ)) (c d : Command) → Asks words c → Asks words d → c ≡ d }
{}

/// Each list of words asks for a command, or for none, which is refused as usage.
pub fn asks_or_not()
    ensures { (words : List (List ℕ)) → ((c : Command) × Asks words c)
        ⊎ ((c : Command) → ¬ (Asks words c)) }
{}

/// A list of words asks at most one thing of the second program, with one list of settings.
pub fn one_refutation()
    ensures { (words : List (List ℕ)) (c d : RefutationAsked)
        → AsksRefutation words c → AsksRefutation words d → c ≡ d }
{}
