// I+, the rising edge.
ghost use Rattle.blocks.specs.RisingEdge.{rising_edge};
ghost use Rattle.blocks.specs.Holding.{edge_fits};
ghost use Rattle.std.proofs.Common.{rules};

use crate::pins::{is_on, one_output, rises};
use block::call::Call;
use block::kind::BlockKind;
use block::worked::Worked;
use catalogue::Block;

pub struct RisingEdge;

impl BlockKind for RisingEdge {
    ghost meaning = { rising_edge };

    ghost small = { Prim.search rules };

    ghost lawful = { edge_fits };

    fn cells(&self) -> u16 {
        Block::RisingEdge.cells()
    }

    #[tactic(auto, unfolding(crate::specs::RisingEdge::edge_gives))]
    fn work(&self, call: &Call, cells: &mut [i32; 3]) -> Worked {
        let pulse = rises(call.inputs[0], cells[0]);
        cells[0] = i32::from(is_on(call.inputs[0]));
        one_output(i32::from(pulse))
    }
}
