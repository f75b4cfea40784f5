//! The names of the commands.

ghost use Rattle.std.specs.Prelude.{◌≡◌};
ghost use Rattle.lsm_grammar.specs.Requests.{named, named_converting, named_otherwise};
ghost use Rattle.lsm_grammar.specs.Requests.{named_reading, named_writing, word_of};

/// Which command of the program it is.
#[derive(Clone, Copy, Debug)]
pub enum CommandName {
    MakeTable,
    Dump,
    Manifest,
    Script,
    Check,
    List,
    Levels,
    Get,
    Scan,
    Ingest,
    Put,
    Delete,
    Load,
    Import,
    Recover,
    Repair,
    Compact,
    Clean,
    Shell,
    Bench,
    Help,
}

impl CommandName {
    /// The word that names it.
    pub(crate) fn word(self) -> &'static str
        ensures { result.now ≡ word_of self }
    {
        match self {
            CommandName::MakeTable => "mktable",
            CommandName::Dump => "dump",
            CommandName::Manifest => "manifest",
            CommandName::Script => "script",
            CommandName::Check => "check",
            CommandName::List => "list",
            CommandName::Levels => "levels",
            CommandName::Get => "get",
            CommandName::Scan => "scan",
            CommandName::Ingest => "ingest",
            CommandName::Put => "put",
            CommandName::Delete => "delete",
            CommandName::Load => "load",
            CommandName::Import => "import",
            CommandName::Recover => "recover",
            CommandName::Repair => "repair",
            CommandName::Compact => "compact",
            CommandName::Clean => "clean",
            CommandName::Shell => "shell",
            CommandName::Bench => "bench",
            CommandName::Help => "help",
        }
    }
}

/// The command of this name that turns one file into another form.
#[tactic(auto, unfolding(crate::specs::Requests::named_converting))]
fn named_converting(word: &str) -> Option<CommandName>
    ensures { result ≡ named_converting word.now }
{
    match word {
        "mktable" => Some(CommandName::MakeTable),
        "dump" => Some(CommandName::Dump),
        "manifest" => Some(CommandName::Manifest),
        _ => None,
    }
}

/// The command of this name that reads a folder.
#[tactic(auto, unfolding(crate::specs::Requests::named_reading))]
fn named_reading(word: &str) -> Option<CommandName>
    ensures { result ≡ named_reading word.now }
{
    match word {
        "check" => Some(CommandName::Check),
        "list" => Some(CommandName::List),
        "levels" => Some(CommandName::Levels),
        "get" => Some(CommandName::Get),
        "scan" => Some(CommandName::Scan),
        _ => None,
    }
}

/// The command of this name that writes in a folder.
#[tactic(auto, unfolding(crate::specs::Requests::named_writing))]
fn named_writing(word: &str) -> Option<CommandName>
    ensures { result ≡ named_writing word.now }
{
    match word {
        "ingest" => Some(CommandName::Ingest),
        "put" => Some(CommandName::Put),
        "delete" => Some(CommandName::Delete),
        "load" => Some(CommandName::Load),
        "import" => Some(CommandName::Import),
        "recover" => Some(CommandName::Recover),
        "repair" => Some(CommandName::Repair),
        "compact" => Some(CommandName::Compact),
        "clean" => Some(CommandName::Clean),
        _ => None,
    }
}

/// The command of this name that is none of these.
#[tactic(auto, unfolding(crate::specs::Requests::named_otherwise))]
fn named_otherwise(word: &str) -> Option<CommandName>
    ensures { result ≡ named_otherwise word.now }
{
    match word {
        "script" => Some(CommandName::Script),
        "shell" => Some(CommandName::Shell),
        "bench" => Some(CommandName::Bench),
        "help" => Some(CommandName::Help),
        _ => None,
    }
}

/// The command of this name.
#[tactic(auto, unfolding(crate::specs::Requests::named))]
pub(crate) fn named(word: &str) -> Option<CommandName>
    ensures { result ≡ named word.now }
{
    named_converting(word)
        .or(named_reading(word))
        .or(named_writing(word))
        .or(named_otherwise(word))
}
