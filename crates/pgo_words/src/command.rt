// The words of the commands.
ghost use Rattle.std.specs.Prelude.{◌≡◌};
ghost use Rattle.pgo_words.specs.Table.{command_named};

/// The name of a command.
#[derive(Clone, Copy, Debug, PartialEq, Eq, Drop)]
pub enum CommandName {
    Check,
    Print,
    Gen,
    Lower,
    Run,
    Merge,
    Show,
    Edges,
    Use,
    Promote,
    Chain,
    Large,
    Layout,
    Tree,
}

/// The command that a word names.
pub fn command_named(word: &str) -> Option<CommandName>
    ensures { result ≡ command_named word.now }
{
    match word {
        "check" => Some(CommandName::Check),
        "print" => Some(CommandName::Print),
        "gen" => Some(CommandName::Gen),
        "lower" => Some(CommandName::Lower),
        "run" => Some(CommandName::Run),
        "merge" => Some(CommandName::Merge),
        "show" => Some(CommandName::Show),
        "edges" => Some(CommandName::Edges),
        "use" => Some(CommandName::Use),
        "promote" => Some(CommandName::Promote),
        "chain" => Some(CommandName::Chain),
        "large" => Some(CommandName::Large),
        "layout" => Some(CommandName::Layout),
        "tree" => Some(CommandName::Tree),
        _ => None,
    }
}
