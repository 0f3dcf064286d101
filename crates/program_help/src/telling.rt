ghost use Rattle.std.specs.Prelude.{◌≡◌};
ghost use Rattle.program_help.specs.Telling.{help_text, version_text, IsTextTold};

use crate::texts;
use command_words::Topic;
use console_lines::{End, tell_result};
use outside::Sink;

/// The text of a topic.
pub(crate) fn text_of(topic: Topic) -> &'static str
    ensures { result.now ≡ help_text topic }
{
    match topic {
        Topic::All => texts::ALL,
        Topic::Pass => texts::PASS,
        Topic::Run => texts::RUN,
        Topic::Load => texts::LOAD,
        Topic::Browse => texts::BROWSE,
        Topic::Export => texts::EXPORT,
        Topic::Report => texts::REPORT,
        Topic::Make => texts::MAKE,
        Topic::Verify => texts::VERIFY,
        Topic::Matches => texts::MATCHES,
        Topic::Holdings => texts::HOLDINGS,
        Topic::Headings => texts::HEADINGS,
        Topic::Worklist => texts::WORKLIST,
        Topic::Migrate => texts::MIGRATE,
        Topic::Salvage => texts::SALVAGE,
        Topic::Checkpoint => texts::CHECKPOINT,
        Topic::Quick => texts::QUICK,
        Topic::Reading => texts::READING,
        Topic::Refused => texts::REFUSED,
        Topic::Split => texts::SPLIT,
        Topic::Join => texts::JOIN,
        Topic::Totals => texts::TOTALS,
        Topic::Large => texts::LARGE,
        Topic::Help => texts::HELP,
        Topic::Version => texts::VERSION,
        Topic::Statuses => texts::STATUSES,
    }
}

fn tell_text<K: Sink>(console: &mut K, text: &str) -> End
    ensures { IsTextTold text.now (K.written console.old) (K.written console.new) (K.faults console.old) (K.faults console.new) result }
{
    tell_result(console, text, false)
}

/// The command `help`: tells how the commands are used, or one of them. It takes no memory.
pub fn help<K: Sink>(console: &mut K, topic: Topic) -> End
    ensures { IsTextTold (help_text topic) (K.written console.old) (K.written console.new) (K.faults console.old) (K.faults console.new) result }
{
    tell_text(console, text_of(topic))
}

/// The command `version`: tells the program's version. It takes no memory.
pub fn version<K: Sink>(console: &mut K) -> End
    ensures { IsTextTold version_text (K.written console.old) (K.written console.new) (K.faults console.old) (K.faults console.new) result }
{
    tell_text(console, texts::THIS_VERSION)
}
