// The usage lines.
ghost use Rattle.std.specs.Prelude.{◌≡◌};
ghost use Rattle.command_words.specs.Usage.{usage_text, refutation_usage_text};

/// The usage lines of `black`.
pub fn usage() -> &'static [u8]
    ensures { result.now ≡ usage_text }
{
    b"usage: black solve [--finite] [--depth N] [--cert] [--core] [--workers N]\n\
      usage: black check [--finite] [--workers N]\n\
      usage: black trace\n\
      usage: black demo N\n\
      usage: black batch [--finite] [--depth N] [--workers N]\n\
      usage: black system [--depth N] [--cert]\n\
      usage: black monitor\n\
      usage: black depast\n"
}

/// The usage lines of the second program.
pub fn refutation_usage() -> &'static [u8]
    ensures { result.now ≡ refutation_usage_text }
{
    b"usage: black_refute [--finite] [--cert] [--steps N] [--progress]\n\
      usage: black_refute --check [--finite]\n"
}
