ghost use Rattle.std.specs.Prelude.{◌≡◌, true, bytes_eq};

use marc_types::{Key, NoMemory, Text};
use selection::Selection;
use std::alloc::Global;
use std::test::Fail;

// A selection of all keys keeps each key.
fn is_among_all(key: &Key) -> bool
    ensures { result ≡ true }
{
    Selection::new(|_key: &Key| true).keeps(key)
}

// A selection by code keeps the keys with that code.
fn has_code(key: &Key, code: &Text) -> bool
    ensures { result ≡ bytes_eq key.now.code code.now }
{
    Selection::new(|key: &Key| key.code == *code).keeps(key)
}

fn key(alloc: Global) -> Result<Key, NoMemory> {
    let code = Text::from_str(alloc, "ULIB")?;
    let number = Text::from_str(alloc, "1")?;
    Ok(Key { code, number })
}

fn is_kept_by(alloc: Global, key: &Key, code: &str) -> Result<bool, NoMemory> {
    let code = Text::from_str(alloc, code)?;
    Ok(has_code(key, &code))
}

#[test]
fn keys_are_kept(rt: HostRuntime) -> Result<(), Fail> {
    let alloc = rt.alloc();
    let key = key(alloc)?;
    assert!(rt; is_among_all(&key));
    assert!(rt; is_kept_by(alloc, &key, "ULIB")?);
    assert!(rt; !is_kept_by(alloc, &key, "DLC")?);
    Ok(())
}
