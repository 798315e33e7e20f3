// Values of letters, as a solver has found them.
use cnf_base::Letter;

/// Values of the letters below some number.
pub trait Values {
    ghost use Rattle.std.specs.Prelude.{◌≡◌, ◌<◌, ℕ, Bool};

    ghost room: { Self → ℕ };

    ghost values: { Self → ℕ → Bool };

    /// The value of a letter.
    fn value(&self, letter: Letter) -> bool
        requires { letter.0 < room self.now }
        ensures { result ≡ values self.now letter.0 };
}
