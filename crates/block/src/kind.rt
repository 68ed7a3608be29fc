// A block kind, by its meaning.
ghost use Rattle.std.specs.Prelude.{◌≡◌, ℕ, ◌≤◌, true, List, ℤ};
ghost use Rattle.block.specs.Meaning.{Meaning, outputs_fit};

use crate::call::Call;
use crate::worked::Worked;

pub trait BlockKind {
    ghost meaning: { Meaning };

    // How many history cells a call of the kind has.
    // Told by each kind, since a kind need not be one of the catalogue.
    fn cells(&self) -> u16
        ensures { result ≡ meaning.count };

    // Works the block once. Any inputs and any cells will do.
    fn work(&self, call: &Call, cells: &mut [i32; 3]) -> Worked
        ensures told { result ≡ (meaning.gives call.now.inputs cells.old call.now.ms).worked }
        ensures kept { cells.new ≡ (meaning.gives call.now.inputs cells.old call.now.ms).cells };

    // A window has room for three cells.
    ghost small: { meaning.count ≤ 3 };

    // What a block tells may be stored: each output is a value of its pin.
    ghost lawful: { (inputs cells : List ℤ) (ms : ℕ) → outputs_fit meaning.pins (meaning.gives inputs cells ms).worked.outputs ≡ true };
}
