// ZUWD, a double copied.
ghost use Rattle.blocks.specs.Zuwd.{zuwd};
ghost use Rattle.blocks.specs.Holding.{zuwd_fits};
ghost use Rattle.std.proofs.Common.{rules};

use crate::pins::one_output;
use block::call::Call;
use block::kind::BlockKind;
use block::worked::Worked;
use catalogue::Block;
use number::limit::{Width, correct};

pub struct Zuwd;

impl BlockKind for Zuwd {
    ghost meaning = { zuwd };

    ghost small = { Prim.search rules };

    ghost lawful = { zuwd_fits };

    fn cells(&self) -> u16 {
        Block::Zuwd.cells()
    }

    #[tactic(auto, unfolding(crate::specs::Zuwd::zuwd_gives))]
    fn work(&self, call: &Call, _cells: &mut [i32; 3]) -> Worked {
        one_output(correct(Width::Double, call.inputs[0]))
    }
}
