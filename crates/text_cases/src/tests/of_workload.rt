ghost use Rattle.std.specs.Prelude.{◌≤◌};
ghost use Rattle.marc_types.specs.Limits.{most_made};

use super::steps::Short;
use std::alloc::Global;
use std::test::Fail;
use workload::make;

fn made(alloc: Global, seed: u64, count: u64) -> Result<Vec<u8>, Fail>
    requires { count ≤ most_made }
{
    let mut page = Short::new(alloc, u64::MAX);
    make(alloc, seed, count, &mut page)?;
    Ok(page.bytes)
}

/// The first record of seed 0.
const FIRST: &[u8; 116] =
    b"00116nam a2200073 a 4500001000300000003000500003100002200008245001200030\x1eb1\x1eUCAT\x1e1 \x1faAlias0, X\x1feauthor\x1e00\x1faTitle 1\x1e\x1d";

/// Whether these are the bytes of a workload of seed 0.
fn makes(alloc: Global, count: u64, bytes: &[u8]) -> Result<bool, Fail>
    requires { count ≤ most_made }
{
    let page = made(alloc, 0, count)?;
    Ok(page.as_slice() == bytes)
}

#[test]
fn one_record(rt: HostRuntime) -> Result<(), Fail> {
    assert!(rt; makes(rt.alloc(), 1, FIRST)?);
    assert!(rt; makes(rt.alloc(), 0, b"")?);
    Ok(())
}

/// The bytes as the digits of a number in base 31, of which 32 bits are left.
fn checksum(bytes: &[u8]) -> u32 {
    bytes.iter().fold(0u32, |sum, byte| {
        sum.wrapping_mul(31).wrapping_add(u32::from(*byte))
    })
}

/// The length and the checksum of a workload.
fn sample(alloc: Global, seed: u64, count: u64) -> Result<(usize, u32), Fail>
    requires { count ≤ most_made }
{
    let page = made(alloc, seed, count)?;
    Ok((page.len(), checksum(page.as_slice())))
}

/// Lengths and checksums of workloads that a second program made by the same rules.
#[test]
fn samples(rt: HostRuntime) -> Result<(), Fail> {
    let alloc = rt.alloc();
    assert!(rt; sample(alloc, 7, 20)? == (2_184, 3_044_797_277));
    assert!(rt; sample(alloc, 7, 500)? == (57_210, 2_324_713_485));
    assert!(rt; sample(alloc, u64::MAX, 40)? == (4_308, 1_844_057_209));
    Ok(())
}
