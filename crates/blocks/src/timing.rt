// The time that T has been 1, as the delays count it.
ghost use Rattle.std.specs.Prelude.{◌≡◌};
ghost use Rattle.blocks.specs.Timing.{elapsed, timed_cells};

use crate::pins::is_on;
use block::call::Call;
use number::operations::at_least_zero;

// The ms since T rose, limited as a double. Scans that skip the block add nothing.
fn elapsed_of(call: &Call, cells: &[i32; 3]) -> u32
    ensures { result ≡ elapsed call.now.inputs cells.now call.now.ms }
{
    if is_on(call.inputs[0]) && is_on(cells[0]) {
        at_least_zero(cells[1])
            .saturating_add(call.ms)
            .min(2_147_483_647)
    } else {
        0
    }
}

// Counts this scan's time and keeps T.
pub fn count_time(call: &Call, cells: &mut [i32; 3]) -> u32
    ensures told { result ≡ elapsed call.now.inputs cells.old call.now.ms }
    ensures kept { cells.new ≡ timed_cells call.now.inputs cells.old call.now.ms }
{
    let elapsed = elapsed_of(call, cells);
    cells[0] = i32::from(is_on(call.inputs[0]));
    cells[1] = elapsed as i32;
    elapsed
}
