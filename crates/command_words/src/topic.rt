ghost use Rattle.std.specs.Prelude.{◌≡◌};
ghost use Rattle.command_words.specs.Topics.{topic_of};

/// What help can be asked for.
#[derive(Clone, Copy, Debug, PartialEq, Eq)]
pub enum Topic {
    /// All commands, a line each.
    All,
    Pass,
    Run,
    Load,
    Browse,
    Export,
    Report,
    Make,
    Verify,
    Migrate,
    Salvage,
    Matches,
    Holdings,
    Headings,
    Worklist,
    Checkpoint,
    Quick,
    Reading,
    Refused,
    Split,
    Join,
    Totals,
    /// The word before a command that takes the limits of a large catalogue.
    Large,
    Help,
    Version,
    /// The exit statuses of all commands.
    Statuses,
}

/// The command that a word names, or another topic.
#[tactic(auto, unfolding(crate::specs::Topics::topic_of))]
pub fn named_topic(word: &str) -> Option<Topic>
    ensures { result ≡ topic_of word.now }
{
    match word {
        "pass" => Some(Topic::Pass),
        "run" => Some(Topic::Run),
        "load" => Some(Topic::Load),
        "browse" => Some(Topic::Browse),
        "export" => Some(Topic::Export),
        "report" => Some(Topic::Report),
        "make" => Some(Topic::Make),
        "verify" => Some(Topic::Verify),
        "migrate" => Some(Topic::Migrate),
        "salvage" => Some(Topic::Salvage),
        "matches" => Some(Topic::Matches),
        "holdings" => Some(Topic::Holdings),
        "headings" => Some(Topic::Headings),
        "worklist" => Some(Topic::Worklist),
        "checkpoint" => Some(Topic::Checkpoint),
        "quick" => Some(Topic::Quick),
        "reading" => Some(Topic::Reading),
        "refused" => Some(Topic::Refused),
        "split" => Some(Topic::Split),
        "join" => Some(Topic::Join),
        "totals" => Some(Topic::Totals),
        "large" => Some(Topic::Large),
        "help" => Some(Topic::Help),
        "version" => Some(Topic::Version),
        "statuses" => Some(Topic::Statuses),
        _ => None,
    }
}
