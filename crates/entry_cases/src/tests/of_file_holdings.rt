use file_holdings::{FileHoldings, NextHolding, prepare_holding};
use marc_types::Text;
use outside_mem::MemSource;
use std::alloc::Global;
use std::test::Fail;

/// A holding.
const HOLDING: &[u8; 77] =
    b"00077nx  a22000611n 4500001000300000004000300003852000900006\x1eh1\x1eb1\x1e  \x1faULIB\x1e\x1d";

/// A holding, the same record without its 004, and a rest without a terminator.
const FILE: &[u8] =
    b"00077nx  a22000611n 4500001000300000004000300003852000900006\x1eh1\x1eb1\x1e  \x1faULIB\x1e\x1d\
    00062nx  a22000491n 4500001000300000852000900003\x1eh1\x1e  \x1faULIB\x1e\x1drest";

/// The number of the next refusal; 0 for a holding, and 255 where there is neither.
fn number_of_next(alloc: Global, items: &mut FileHoldings<MemSource>) -> u8 {
    if items.is_over() {
        return 255;
    }
    match items.next(alloc) {
        NextHolding::Holding { .. } => 0,
        NextHolding::Refused(item) => item.refusal.number(),
        _ => 255,
    }
}

fn opened(alloc: Global) -> Result<FileHoldings<MemSource>, Fail> {
    let source = MemSource::new(Vec::from_slice(alloc, FILE)?, 7, Vec::new(alloc));
    let library = Text::from_str(alloc, "ULIB")?;
    match FileHoldings::new(alloc, source, library) {
        Ok(items) => Ok(items),
        Err((_source, fault)) => Err(Fail::from(fault)),
    }
}

#[test]
fn a_holding_and_two_refused_items(rt: HostRuntime) -> Result<(), Fail> {
    let mut items = opened(rt.alloc())?;
    for number in &[0, 17, 2, 255, 255] {
        assert!(rt; number_of_next(rt.alloc(), &mut items) == *number);
    }
    Ok(())
}

/// Whether a piece is a holding of these numbers.
fn is_holding(alloc: Global, piece: &[u8], library: &Text, number: &str, target: &str) -> bool {
    match prepare_holding(alloc, piece, library) {
        Ok(item) => {
            item.key().number.as_str() == number && item.target().number.as_str() == target
        }
        Err(_fault) => false,
    }
}

#[test]
fn the_holding_of_a_piece(rt: HostRuntime) -> Result<(), Fail> {
    let library = Text::from_str(rt.alloc(), "ULIB")?;
    assert!(rt; is_holding(rt.alloc(), HOLDING.as_slice(), &library, "h1", "b1"));
    Ok(())
}
