// A block's window of the history: read, worked, put back.
ghost use Rattle.std.specs.Prelude.{◌≡◌, true};
ghost use Rattle.block.specs.Meaning.{outputs_fit};
ghost use Rattle.block.specs.Windows.{cell_at, window_of, with_cell, with_window, worked_at, history_after, SameOutside};

use crate::call::Call;
use crate::kind::BlockKind;
use crate::worked::Worked;

// The cells of a call: `count` of them, from `first` on, in an array of three, since memory is fixed. They may lie past the history's end, where nothing stands.
#[derive(Clone, Copy)]
struct Window {
    first: usize,
    count: usize,
}

impl Window {
    fn cell(self, history: &[i32; 1024], k: usize) -> i32
        ensures { result ≡ cell_at history.now self.first self.count k }
    {
        if k < self.count {
            let place = self.first.saturating_add(k);
            history.get(place).copied().unwrap_or(0)
        } else {
            0
        }
    }

    fn read(self, history: &[i32; 1024]) -> [i32; 3]
        ensures { result ≡ window_of history.now self.first self.count }
    {
        [0, 1, 2].map(|k| self.cell(history, k))
    }

    fn put_cell(self, history: &mut [i32; 1024], k: usize, cell: i32)
        ensures { history.new ≡ with_cell history.old self.first self.count k cell }
    {
        let place = self.first.saturating_add(k);
        // `get_mut` would tell nothing of what is written through it
        if k < self.count && place < history.len() {
            history[place] = cell;
        }
    }

    fn put(self, history: &mut [i32; 1024], cells: &[i32; 3])
        ensures kept { history.new ≡ with_window history.old self.first self.count cells.now }
        ensures outside { SameOutside self.first self.count history.old history.new }
    {
        for (k, cell) in cells.iter().enumerate() {
            self.put_cell(history, k, *cell);
        }
    }
}

// Works a block on its window, `first` being the place of its first cell: the window is read, the
// block worked, the window put back. What lies past the history's end reads as 0 and is not put.
#[tactic(auto, unfolding(crate::specs::Windows::worked_at, crate::specs::Windows::history_after))]
pub fn work_at<B: BlockKind>(
    block: &B,
    call: &Call,
    history: &mut [i32; 1024],
    first: usize,
) -> Worked
    ensures told { result ≡ worked_at B.BlockKind.meaning call.now.inputs history.old first call.now.ms }
    ensures lawful { outputs_fit B.BlockKind.meaning.pins result.outputs ≡ true }
    ensures kept { history.new ≡ history_after B.BlockKind.meaning call.now.inputs history.old first call.now.ms }
    ensures outside { SameOutside first B.BlockKind.meaning.count history.old history.new }
{
    let window = Window {
        first,
        count: usize::from(block.cells()),
    };
    let mut cells = window.read(history);
    let worked = block.work(call, &mut cells);
    window.put(history, &cells);
    worked
}
