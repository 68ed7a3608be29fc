// SPBM, the jump.
ghost use Rattle.blocks.specs.Spbm.{spbm};
ghost use Rattle.blocks.specs.Holding.{spbm_fits};
ghost use Rattle.std.proofs.Common.{rules};

use crate::pins::is_on;
use block::call::Call;
use block::kind::BlockKind;
use block::worked::Worked;
use catalogue::Block;

pub struct Spbm;

impl BlockKind for Spbm {
    ghost meaning = { spbm };

    ghost small = { Prim.search rules };

    ghost lawful = { spbm_fits };

    fn cells(&self) -> u16 {
        Block::Spbm.cells()
    }

    #[tactic(auto, unfolding(crate::specs::Spbm::spbm_gives))]
    fn work(&self, call: &Call, _cells: &mut [i32; 3]) -> Worked {
        Worked {
            outputs: [0; 3],
            jumps: is_on(call.inputs[0]),
        }
    }
}
