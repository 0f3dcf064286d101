//! Whether a key is the first of a group.
ghost use Rattle.std.specs.Prelude.{◌≡◌};
ghost use Rattle.catalogue_rules.specs.Output.{is_least_of};
ghost use Rattle.catalogue_tables.specs.Sharing.{shown_keys};

use marc_types::Key;

/// Whether a key is the least of two or more, which are in order: so that what is told of a group of keys is told once.
pub fn is_least_of(own: &Key, group: &[&Key]) -> bool
    ensures { result ≡ is_least_of own.now (shown_keys group.now) }
{
    let [least, _other, ..] = group else {
        return false;
    };
    let least: &Key = least;
    own == least
}
