ghost use Rattle.std.specs.Prelude.{◌≡◌};
ghost use Rattle.command_words.specs.Look.{kind_of};

use marc_types::Kind;

/// The kind of headings that a word names.
#[tactic(auto, unfolding(crate::specs::Look::kind_of))]
pub fn named_kind(word: &str) -> Option<Kind>
    ensures { result ≡ kind_of word.now }
{
    match word {
        "personal" => Some(Kind::Personal),
        "corporate" => Some(Kind::Corporate),
        "meeting" => Some(Kind::Meeting),
        "title" => Some(Kind::Title),
        "chronological" => Some(Kind::Chronological),
        "topical" => Some(Kind::Topical),
        "geographic" => Some(Kind::Geographic),
        "genre" => Some(Kind::Genre),
        _ => None,
    }
}
