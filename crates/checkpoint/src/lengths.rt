//! Parts of a payload behind their length.
ghost use Rattle.std.specs.Prelude.{◌≡◌, ◌<◌, ◌^◌, ◌++◌, length, IfSome, IfNone};
ghost use Rattle.checkpoint.specs.Format.{coded, sized};
ghost use Rattle.checkpoint.specs.Reading.{AreNotCoded, AreNotSized};

use commit_journal::short_number;

/// Bytes behind their length, which takes one byte, and what stands behind them.
#[tactic(auto, unfolding(crate::specs::Format::coded))]
pub fn coded(bytes: &[u8]) -> Option<(&[u8], &[u8])>
    ensures found { IfSome result (λ r. coded r.0.now ++ r.1.now ≡ bytes.now) }
    ensures none { IfNone result (AreNotCoded bytes.now) }
{
    let (len, behind) = bytes.split_first()?;
    let (part, rest) = behind.split_at_checked(*len as usize)?;
    Some((part, rest))
}

/// Bytes behind their length, which takes four bytes, and what stands behind them.
pub fn sized(bytes: &[u8]) -> Option<(&[u8], &[u8])>
    ensures found { IfSome result (λ r. sized r.0.now ++ r.1.now ≡ bytes.now) }
    ensures fits { IfSome result (λ r. length r.0.now < 2 ^ 32) }
    ensures none { IfNone result (AreNotSized bytes.now) }
{
    let (len, behind) = short_number(bytes)?;
    let (part, rest) = behind.split_at_checked(len as usize)?;
    Some((part, rest))
}
