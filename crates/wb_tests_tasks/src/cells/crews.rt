//! A crew, step by step.

use std::test::Fail;
use wb_cells::Crew;
use wb_types::OBlock;
use wb_words::{Access, CellResult, CellStep, Word};

#[test]
fn who_shares_keeps_an_owner_out_until_it_leaves(rt: HostRuntime) -> Result<(), Fail> {
    let mut crew = Crew::new(rt.alloc(), 3, 2)?;
    let block = OBlock(2);
    let share = CellStep::Take(Access::Shared, block, 0);
    let own = CellStep::Take(Access::Owned, block, 0);
    let first = [crew.step(0, share), crew.step(1, own)];
    assert!(rt; first == [CellResult::Done, CellResult::Lost]);
    crew.step(0, CellStep::Release(Access::Shared, block));
    assert!(rt; crew.step(1, own) == CellResult::Done);
    assert!(rt; crew.step(0, CellStep::Look(Word::Cell(block))) == CellResult::Word(1));
    crew.rule();
    Ok(())
}
