// The table of the commands, of the calls of the second program, and of their options: their words, their
// numbers, and which option is offered where.
ghost use Rattle.std.specs.Prelude.{◌≡◌, ◌≢◌, ◌≤◌, MatchOption, IfSome};
ghost use Rattle.command_words.specs.declared.table.OptionName.{OptionName};
ghost use Rattle.command_words.specs.declared.table.CommandName.{CommandName};
ghost use Rattle.command_words.specs.Table.{option_row, option_word, command_row, offers_of, has_option};

/// A number in a word: one to `digits` decimal digits, whose value goes from `low` to `high`.
#[derive(Clone, Copy)]
pub struct Range {
    pub digits: usize,
    pub low: u32,
    pub high: u32,
}

/// An option.
#[derive(Clone, Copy)]
pub enum OptionName {
    Finite,
    Depth,
    Cert,
    Core,
    Workers,
    Check,
    Steps,
    Progress,
}

/// A command.
#[derive(Clone, Copy)]
pub enum CommandName {
    Solve,
    Check,
    Trace,
    Demo,
    Batch,
    System,
    Monitor,
    Depast,
}

/// What has options: a command of `black`, or one of the two calls of the second program.
#[derive(Clone, Copy)]
pub enum Offering {
    Command(CommandName),
    Refute,
    Verify,
}

/// The number of `--depth`.
pub const DEPTHS: Range = Range {
    digits: 4,
    low: 0,
    high: 1_000,
};

/// The number of `--workers`.
pub const WORKERS: Range = Range {
    digits: 2,
    low: 1,
    high: 16,
};

/// The number of `--steps`.
pub const STEPS: Range = Range {
    digits: 9,
    low: 1,
    high: 999_999_999,
};

/// The number behind `demo`.
pub const DEMO_NUMBERS: Range = Range {
    digits: 2,
    low: 2,
    high: 64,
};

/// The most bytes of a formula's text: behind them it is known to be too long.
pub const MAX_TEXT: usize = 1_048_576;

/// The most bytes of a batch.
pub const MAX_BATCH: usize = 16_777_216;

/// The option of the word.
pub fn option_named(word: &str) -> Option<OptionName>
    ensures { MatchOption result ((option : OptionName) → word.now ≢ option_word option)
        (λ option. word.now ≡ option_word option) }
{
    match word {
        "--finite" => Some(OptionName::Finite),
        "--depth" => Some(OptionName::Depth),
        "--cert" => Some(OptionName::Cert),
        "--core" => Some(OptionName::Core),
        "--workers" => Some(OptionName::Workers),
        "--check" => Some(OptionName::Check),
        "--steps" => Some(OptionName::Steps),
        "--progress" => Some(OptionName::Progress),
        _ => None,
    }
}

/// The number of the option, where it has one.
pub fn option_range(option: OptionName) -> Option<Range>
    ensures range { result ≡ (option_row option).number }
    ensures few { IfSome result (λ range. range.digits ≤ 9) }
{
    match option {
        OptionName::Depth => Some(DEPTHS),
        OptionName::Workers => Some(WORKERS),
        OptionName::Steps => Some(STEPS),
        OptionName::Finite | OptionName::Cert | OptionName::Core => None,
        OptionName::Check | OptionName::Progress => None,
    }
}

/// The command of the word.
pub fn command_named(word: &str) -> Option<CommandName>
    ensures { MatchOption result ((command : CommandName) → word.now ≢ (command_row command).word)
        (λ command. word.now ≡ (command_row command).word) }
{
    match word {
        "solve" => Some(CommandName::Solve),
        "check" => Some(CommandName::Check),
        "trace" => Some(CommandName::Trace),
        "demo" => Some(CommandName::Demo),
        "batch" => Some(CommandName::Batch),
        "system" => Some(CommandName::System),
        "monitor" => Some(CommandName::Monitor),
        "depast" => Some(CommandName::Depast),
        _ => None,
    }
}

/// Whether the option is offered there.
pub fn offers_option(offering: Offering, option: OptionName) -> bool
    ensures { result ≡ has_option (offers_of offering) option }
{
    match (offering, option) {
        (Offering::Command(command), _) => command_offers(command, option),
        (Offering::Refute, OptionName::Finite | OptionName::Cert) => true,
        (Offering::Refute, OptionName::Steps | OptionName::Progress) => true,
        (Offering::Verify, OptionName::Check | OptionName::Finite) => true,
        _ => false,
    }
}

/// Whether the command has the option.
fn command_offers(command: CommandName, option: OptionName) -> bool
    ensures { result ≡ has_option (command_row command).options option }
{
    match (command, option) {
        (CommandName::Solve, OptionName::Finite | OptionName::Depth | OptionName::Workers) => true,
        (CommandName::Solve, OptionName::Cert | OptionName::Core) => true,
        (CommandName::Check, OptionName::Finite | OptionName::Workers) => true,
        (CommandName::Batch, OptionName::Finite | OptionName::Depth | OptionName::Workers) => true,
        (CommandName::System, OptionName::Depth | OptionName::Cert) => true,
        _ => false,
    }
}
