// A letter that is made ready to be compared. Each is held against each, so what that takes is made once.
ghost use Rattle.std.specs.Prelude.{◌≡◌, chars, string_bytes};
ghost use Rattle.requirement_report.specs.Slips.{folded};

/// A letter, and in how many items it stands.
#[derive(Drop)]
pub struct Known {
    pub letter: String,
    pub count: usize,
    /// The letter without `_`, and with small letters for capitals.
    pub small: Vec<u8>,
    pub characters: Vec<char>,
    pub ghost folds: { small.items ≡ folded (string_bytes letter) },
    pub ghost reads: { characters.items ≡ chars (string_bytes letter) },
}
