// A block worked by its kind.
ghost use Rattle.std.specs.Prelude.{◌≡◌, true};
ghost use Rattle.catalogue.specs.Blocks.{pins_of, cells_of};
ghost use Rattle.block.specs.Meaning.{outputs_fit};
ghost use Rattle.block.specs.Windows.{worked_at, history_after, SameOutside};
ghost use Rattle.blocks.specs.Kinds.{meaning_of};

use crate::ctud::Ctud;
use crate::esv::Esv;
use crate::moa::Moa;
use crate::muldi::Muldi;
use crate::rising_edge::RisingEdge;
use crate::spbm::Spbm;
use crate::zuwd::Zuwd;
use block::call::Call;
use block::window::work_at;
use block::worked::Worked;
use catalogue::Block;

// Works a call of that kind, whose first cell is at `first`. A `match` and no `dyn`: the clauses name the
// kind's meaning, which a `dyn` would hide.
pub fn work_block(kind: Block, call: &Call, history: &mut [i32; 1024], first: usize) -> Worked
    ensures told { result ≡ worked_at (meaning_of kind) call.now.inputs history.old first call.now.ms }
    ensures lawful { outputs_fit (pins_of kind) result.outputs ≡ true }
    ensures kept { history.new ≡ history_after (meaning_of kind) call.now.inputs history.old first call.now.ms }
    ensures outside { SameOutside first (cells_of kind) history.old history.new }
{
    match kind {
        Block::Esv => work_at(&Esv, call, history, first),
        Block::Moa => work_at(&Moa, call, history, first),
        Block::RisingEdge => work_at(&RisingEdge, call, history, first),
        Block::Ctud => work_at(&Ctud, call, history, first),
        Block::Muldi => work_at(&Muldi, call, history, first),
        Block::Zuwd => work_at(&Zuwd, call, history, first),
        Block::Spbm => work_at(&Spbm, call, history, first),
    }
}
