// ESV, the delay on.
ghost use Rattle.blocks.specs.Esv.{esv};
ghost use Rattle.blocks.specs.Holding.{esv_fits};
ghost use Rattle.std.proofs.Common.{rules};

use crate::pins::{is_on, one_output};
use crate::timing::count_time;
use block::call::Call;
use block::kind::BlockKind;
use block::worked::Worked;
use catalogue::Block;
use number::operations::rounded_delay;

pub struct Esv;

impl BlockKind for Esv {
    ghost meaning = { esv };

    ghost small = { Prim.search rules };

    ghost lawful = { esv_fits };

    fn cells(&self) -> u16 {
        Block::Esv.cells()
    }

    #[tactic(auto, unfolding(crate::specs::Esv::esv_gives))]
    fn work(&self, call: &Call, cells: &mut [i32; 3]) -> Worked {
        let elapsed = count_time(call, cells);
        let is_due = rounded_delay(call.inputs[1]) <= elapsed;
        one_output(i32::from(is_on(call.inputs[0]) && is_due))
    }
}
