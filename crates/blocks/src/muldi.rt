// MULDI, a product divided.
ghost use Rattle.std.specs.Prelude.{◌≡◌};
ghost use Rattle.blocks.specs.Muldi.{muldi, muldi_output};
ghost use Rattle.blocks.specs.Holding.{muldi_fits};
ghost use Rattle.std.proofs.Common.{rules};

use crate::pins::{one_output, word_of};
use block::call::Call;
use block::kind::BlockKind;
use block::worked::Worked;
use catalogue::Block;
use number::operations::multiply_divide;

pub struct Muldi;

fn scale(inputs: &[i32; 5]) -> i32
    ensures { result ≡ muldi_output inputs.now }
{
    multiply_divide(word_of(inputs[0]), word_of(inputs[1]), word_of(inputs[2]))
}

impl BlockKind for Muldi {
    ghost meaning = { muldi };

    ghost small = { Prim.search rules };

    ghost lawful = { muldi_fits };

    fn cells(&self) -> u16 {
        Block::Muldi.cells()
    }

    #[tactic(auto, unfolding(crate::specs::Muldi::muldi_gives))]
    fn work(&self, call: &Call, _cells: &mut [i32; 3]) -> Worked {
        one_output(scale(&call.inputs))
    }
}
