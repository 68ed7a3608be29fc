// MOA, the pulse that ends with T.
ghost use Rattle.blocks.specs.Moa.{moa};
ghost use Rattle.blocks.specs.Holding.{moa_fits};
ghost use Rattle.std.proofs.Common.{rules};

use crate::pins::{is_on, one_output};
use crate::timing::count_time;
use block::call::Call;
use block::kind::BlockKind;
use block::worked::Worked;
use catalogue::Block;
use number::operations::rounded_delay;

pub struct Moa;

impl BlockKind for Moa {
    ghost meaning = { moa };

    ghost small = { Prim.search rules };

    ghost lawful = { moa_fits };

    fn cells(&self) -> u16 {
        Block::Moa.cells()
    }

    #[tactic(auto, unfolding(crate::specs::Moa::moa_gives))]
    fn work(&self, call: &Call, cells: &mut [i32; 3]) -> Worked {
        let elapsed = count_time(call, cells);
        let is_early = elapsed < rounded_delay(call.inputs[1]);
        one_output(i32::from(is_on(call.inputs[0]) && is_early))
    }
}
