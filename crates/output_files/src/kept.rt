//! Which records an output keeps.
ghost use Rattle.std.specs.Prelude.{◌≡◌};
ghost use Rattle.std.specs.Option.{option_copied};
ghost use Rattle.output_files.specs.Kept.{kept_keys};

use marc_types::Key;

/// Whether an export keeps a key: it keeps all, or those with that code.
pub fn is_kept(key: &Key, code: Option<&str>) -> bool
    ensures { result ≡ kept_keys (option_copied code.entry) key.now }
{
    match code {
        None => true,
        Some(code) => key.code.as_str() == code,
    }
}
