//! The reading of a key.
ghost use Rattle.std.specs.Prelude.{◌≡◌, ◌++◌, IfSome, IfNone, IfOk, IfErr};
ghost use Rattle.checkpoint.specs.Format.{coded, key_bytes, optional_key_bytes};
ghost use Rattle.checkpoint.specs.Parts.{IsProperKey};
ghost use Rattle.checkpoint.specs.Fronts.{BeginWith, BeginWithNone, IsNoFront};
ghost use Rattle.checkpoint.specs.Reading.{IsNoKey, IsOptionalKey};

use crate::PartFault;
use crate::lengths::coded;
use entry_record::graphic_text;
use marc_types::{Key, TiedKey, can_be_code, can_be_number};
use std::alloc::Global;

/// The code and the number of a key, and what stands behind it.
#[derive(Drop)]
struct KeyParts<'a> {
    code: &'a [u8],
    number: &'a [u8],
    rest: &'a [u8],
}

#[tactic(auto, unfolding(crate::specs::Format::key_bytes))]
fn key_parts(bytes: &[u8]) -> Option<KeyParts<'_>>
    ensures found { IfSome result (λ p. coded p.code.now ++ (coded p.number.now ++ p.rest.now) ≡ bytes.now) }
    ensures none { IfNone result (BeginWithNone key_bytes IsProperKey bytes.now) }
{
    let (code, behind) = coded(bytes)?;
    let (number, rest) = coded(behind)?;
    Some(KeyParts { code, number, rest })
}

/// The key of a code and a number.
#[tactic(auto, using(crate::proofs::Keying::code_graphic, crate::proofs::Keying::number_graphic))]
pub(crate) fn proper_key(alloc: Global, code: &[u8], number: &[u8]) -> Result<Key, PartFault>
    ensures key { IfOk result (λ key. key ≡ record { code = code.now; number = number.now }) }
    ensures proper { IfOk result IsProperKey }
    ensures bad { IfErr result (IsNoKey code.now number.now) }
{
    if !can_be_code(code) {
        return Err(PartFault::BadPart);
    }
    if !can_be_number(number) {
        return Err(PartFault::BadPart);
    }
    Ok(Key {
        code: graphic_text(alloc, code)?,
        number: graphic_text(alloc, number)?,
    })
}

/// The key with which bytes begin, and what stands behind it.
fn read_key(alloc: Global, bytes: &[u8]) -> Result<(Key, &[u8]), PartFault>
    ensures read { IfOk result (λ r. BeginWith key_bytes IsProperKey bytes.now r.0 r.1.now) }
    ensures bad { IfErr result (IsNoFront key_bytes IsProperKey bytes.now) }
{
    let Some(parts) = key_parts(bytes) else {
        return Err(PartFault::BadPart);
    };
    let key = proper_key(alloc, parts.code, parts.number)?;
    Ok((key, parts.rest))
}

/// The key with which bytes begin, where one is to be there, and what stands behind it.
pub(crate) fn read_optional_key(
    alloc: Global,
    bytes: &[u8],
    there: bool,
) -> Result<(Option<TiedKey>, &[u8]), PartFault>
    ensures read { IfOk result (λ r. BeginWith optional_key_bytes (IsOptionalKey there) bytes.now r.0 r.1.now) }
    ensures bad { IfErr result (IsNoFront optional_key_bytes (IsOptionalKey there) bytes.now) }
{
    if !there {
        return Ok((None, bytes));
    }
    let (key, rest) = read_key(alloc, bytes)?;
    let tied = TiedKey::new(alloc, key)?;
    Ok((Some(tied), rest))
}
