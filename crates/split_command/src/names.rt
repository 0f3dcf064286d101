//! The names of what a split writes.
ghost use Rattle.std.specs.Prelude.{◌≡◌, ◌+◌, ◌<◌, ◌^◌, IfOk, string_bytes};
ghost use Rattle.split_command.specs.Names.{share_word, share_name, parts_name, names_from};

use marc_types::{NoMemory, Text};
use std::alloc::Global;

/// The word of a share in its name.
#[tactic(auto, using(crate::proofs::Naming::word_of_authorities, crate::proofs::Naming::word_of_part))]
fn share_word(alloc: Global, share: u64) -> Result<String, NoMemory>
    ensures { IfOk result (λ word. string_bytes word ≡ share_word share) }
{
    if share == 0 {
        return Ok(format!(in alloc; "authorities")?);
    }
    let part = share - 1;
    Ok(format!(in alloc; "{part}")?)
}

/// The name of a share of the file with that number.
#[tactic(auto, unfolding(crate::specs::Names::share_name))]
pub fn share_name(alloc: Global, prefix: &str, share: u64, file: u64) -> Result<Text, NoMemory>
    ensures { IfOk result (λ name. name ≡ share_name prefix.now share file) }
{
    let word = share_word(alloc, share)?;
    let word = word.as_str();
    Ok(Text::from_string(format!(in alloc; "{prefix}.{word}.{file}.mrc")?))
}

/// The name of what says how the parts were cut.
#[tactic(auto, unfolding(crate::specs::Names::parts_name))]
pub fn parts_name(alloc: Global, prefix: &str) -> Result<Text, NoMemory>
    ensures { IfOk result (λ name. name ≡ parts_name prefix.now) }
{
    Ok(Text::from_string(format!(in alloc; "{prefix}.parts")?))
}

/// The names of so many shares of a file, from that share on.
#[tactic(auto, using(crate::proofs::Naming::names_more))]
pub fn names_from(
    alloc: Global,
    prefix: &str,
    file: u64,
    first: u64,
    many: u64,
) -> Result<Vec<Text>, NoMemory>
    requires { first + many < 2 ^ 64 }
    ensures { IfOk result (λ names. names.items ≡ names_from prefix.now file first many) }
{
    let mut names = Vec::new(alloc);
    for place in 0..many {
        names.push(share_name(alloc, prefix, first + place, file)?)?;
    }
    Ok(names)
}
