// Blocks worked scan by scan, each in a window of a history that holds 9 everywhere else.
use crate::rows::numbers;
use block::call::Call;
use blocks::dispatch::work_block;
use catalogue::Block;
use number::operations::at_least_zero;
use operand::edition::Edition;

// A name begins a block, with its cells before. Each line behind it is a scan that works it (one that
// skips it has no line): ms, five inputs; then what is due: three outputs, whether it jumps, three
// cells, 0 for those that the kind has not.
static SCANS: &str = "ESV 0 0 0
5 1 12 0 0 0 0 0 0 0 1 0 0
5 1 12 0 0 0 0 0 0 0 1 5 0
5 1 12 0 0 0 1 0 0 0 1 10 0
MOA 0 0 0
5 1 12 0 0 0 1 0 0 0 1 0 0
5 1 12 0 0 0 1 0 0 0 1 5 0
5 1 12 0 0 0 0 0 0 0 1 10 0
ESV 0 0 0
100 0 500 0 0 0 0 0 0 0 0 0 0
100 1 500 0 0 0 0 0 0 0 1 0 0
250 1 500 0 0 0 0 0 0 0 1 250 0
250 1 500 0 0 0 1 0 0 0 1 500 0
100 0 500 0 0 0 0 0 0 0 0 0 0
100 1 500 0 0 0 0 0 0 0 1 0 0
ESV 0 0 0
100 1 500 0 0 0 0 0 0 0 1 0 0
400 1 500 0 0 0 0 0 0 0 1 400 0
99 0 500 0 0 0 0 0 0 0 0 0 0
100 1 500 0 0 0 0 0 0 0 1 0 0
400 1 500 0 0 0 0 0 0 0 1 400 0
100 1 500 0 0 0 1 0 0 0 1 500 0
MOA 0 0 0
100 1 500 0 0 0 1 0 0 0 1 0 0
250 1 500 0 0 0 1 0 0 0 1 250 0
249 1 500 0 0 0 1 0 0 0 1 499 0
1 1 500 0 0 0 0 0 0 0 1 500 0
5 0 500 0 0 0 0 0 0 0 0 0 0
5 1 500 0 0 0 1 0 0 0 1 0 0
MOA 0 0 0
100 1 500 0 0 0 1 0 0 0 1 0 0
100 1 500 0 0 0 1 0 0 0 1 100 0
100 0 500 0 0 0 0 0 0 0 0 0 0
100 1 500 0 0 0 1 0 0 0 1 0 0
ESV 0 0 0
7 1 0 0 0 0 1 0 0 0 1 0 0
7 1 0 0 0 0 1 0 0 0 1 7 0
7 0 0 0 0 0 0 0 0 0 0 0 0
MOA 0 0 0
7 1 0 0 0 0 0 0 0 0 1 0 0
7 1 0 0 0 0 0 0 0 0 1 7 0
7 0 0 0 0 0 0 0 0 0 0 0 0
ESV 0 0 0
7 1 4 0 0 0 1 0 0 0 1 0 0
7 1 4 0 0 0 1 0 0 0 1 7 0
7 0 4 0 0 0 0 0 0 0 0 0 0
MOA 0 0 0
7 1 4 0 0 0 0 0 0 0 1 0 0
7 1 4 0 0 0 0 0 0 0 1 7 0
7 0 4 0 0 0 0 0 0 0 0 0 0
ESV 0 0 0
7 1 -5 0 0 0 1 0 0 0 1 0 0
7 1 -5 0 0 0 1 0 0 0 1 7 0
7 0 -5 0 0 0 0 0 0 0 0 0 0
MOA 0 0 0
7 1 -5 0 0 0 0 0 0 0 1 0 0
7 1 -5 0 0 0 0 0 0 0 1 7 0
7 0 -5 0 0 0 0 0 0 0 0 0 0
ESV 0 0 0
7 1 -2147483648 0 0 0 1 0 0 0 1 0 0
7 1 -2147483648 0 0 0 1 0 0 0 1 7 0
7 0 -2147483648 0 0 0 0 0 0 0 0 0 0
MOA 0 0 0
7 1 -2147483648 0 0 0 0 0 0 0 1 0 0
7 1 -2147483648 0 0 0 0 0 0 0 1 7 0
7 0 -2147483648 0 0 0 0 0 0 0 0 0 0
ESV 0 0 0
4 1 5 0 0 0 0 0 0 0 1 0 0
4 1 5 0 0 0 0 0 0 0 1 4 0
4 1 5 0 0 0 1 0 0 0 1 8 0
ESV 0 0 0
100 1 300 0 0 0 0 0 0 0 1 0 0
100 1 300 0 0 0 0 0 0 0 1 100 0
100 1 300 0 0 0 0 0 0 0 1 200 0
100 1 300 0 0 0 1 0 0 0 1 300 0
ESV 1 2147483640 0
4 1 2147483647 0 0 0 0 0 0 0 1 2147483644 0
1 1 2147483647 0 0 0 1 0 0 0 1 2147483645 0
2147483647 1 2147483647 0 0 0 1 0 0 0 1 2147483647 0
60000 1 2147483647 0 0 0 1 0 0 0 1 2147483647 0
MOA 1 2147483647 0
2147483647 1 2147483647 0 0 0 0 0 0 0 1 2147483647 0
ESV -7 -100 0
5 -3 5 0 0 0 1 0 0 0 1 5 0
ESV 0 100 0
5 -2147483648 5 0 0 0 0 0 0 0 1 0 0
ESV -2147483648 -2147483648 0
4 1 5 0 0 0 0 0 0 0 1 4 0
MOA 44 77 0
5 0 500 0 0 0 0 0 0 0 0 0 0
I+ 0 0 0
9 1 0 0 0 0 1 0 0 0 1 0 0
9 1 0 0 0 0 0 0 0 0 1 0 0
9 0 0 0 0 0 0 0 0 0 0 0 0
9 1 0 0 0 0 1 0 0 0 1 0 0
9 0 0 0 0 0 0 0 0 0 0 0 0
9 0 0 0 0 0 0 0 0 0 0 0 0
9 1 0 0 0 0 1 0 0 0 1 0 0
I+ 5 0 0
9 1 0 0 0 0 0 0 0 0 1 0 0
9 0 0 0 0 0 0 0 0 0 0 0 0
9 -8 0 0 0 0 1 0 0 0 1 0 0
CTUD 0 0 0
3 0 0 0 0 2 0 1 0 0 0 0 0
3 1 0 0 0 2 0 0 1 0 1 0 1
3 1 0 0 0 2 0 0 1 0 1 0 1
3 0 0 0 0 2 0 0 1 0 0 0 1
3 1 0 0 0 2 1 0 2 0 1 0 2
3 0 1 0 0 2 0 0 1 0 0 1 1
3 1 1 0 0 2 1 0 2 0 1 1 2
3 0 0 1 0 2 0 1 0 0 0 0 0
3 1 0 0 0 2 0 0 1 0 1 0 1
3 1 0 1 0 2 0 1 0 0 1 0 0
3 1 0 0 0 2 0 1 0 0 1 0 0
3 0 0 0 1 2 1 0 2 0 0 0 2
3 1 0 0 1 2 1 0 2 0 1 0 2
3 0 0 0 0 2 1 0 2 0 0 0 2
3 1 0 0 1 2 1 0 2 0 1 0 2
CTUD 0 0 0
3 0 0 1 0 2 0 1 0 0 0 0 0
3 1 0 1 0 2 0 1 0 0 1 0 0
3 1 0 0 0 2 0 1 0 0 1 0 0
3 0 0 0 0 2 0 1 0 0 0 0 0
3 1 0 0 0 2 0 0 1 0 1 0 1
CTUD 0 0 0
3 0 1 0 1 2 1 0 2 0 0 1 2
3 0 1 0 0 2 1 0 2 0 0 1 2
3 0 0 0 0 2 1 0 2 0 0 0 2
3 0 1 0 0 2 0 0 1 0 0 1 1
CTUD 0 0 0
3 0 0 0 1 32767 1 0 32767 0 0 0 32767
3 1 0 0 0 32767 1 0 32767 0 1 0 32767
3 0 0 0 0 32767 1 0 32767 0 0 0 32767
3 1 1 0 0 32767 0 0 32766 0 1 1 32766
CTUD 0 0 0
3 0 0 0 1 -32767 1 1 -32767 0 0 0 -32767
3 0 1 0 0 -32767 1 1 -32767 0 0 1 -32767
3 0 0 0 0 -32767 1 1 -32767 0 0 0 -32767
3 1 1 0 0 -32767 1 1 -32767 0 1 1 -32767
CTUD 0 0 0
3 0 0 1 1 7 0 1 0 0 0 0 0
CTUD 0 0 0
3 0 0 0 1 -32768 1 1 -32767 0 0 0 -32767
CTUD 0 0 0
3 0 0 0 0 0 1 1 0 0 0 0 0
3 0 1 0 0 0 0 1 -1 0 0 1 -1
3 0 0 0 0 0 0 1 -1 0 0 0 -1
3 1 0 0 0 0 1 1 0 0 1 0 0
CTUD 9 -9 100000
3 4 0 0 0 0 1 0 32767 0 1 0 32767
CTUD 0 -1 -2147483648
3 0 1 0 0 0 0 1 -32767 0 0 1 -32767
3 1 1 0 0 0 0 1 -32766 0 1 1 -32766
MULDI 0 0 0
1 300 400 7 0 0 17142 0 0 0 0 0 0
1 300 400 3 0 0 32767 0 0 0 0 0 0
1 300 400 0 0 0 32767 0 0 0 0 0 0
1 -300 400 0 0 0 -32767 0 0 0 0 0 0
1 0 400 0 0 0 0 0 0 0 0 0 0
1 5 1 2 0 0 2 0 0 0 0 0 0
1 -5 1 2 0 0 -2 0 0 0 0 0 0
1 32767 32767 32767 0 0 32767 0 0 0 0 0 0
1 -32768 1 1 0 0 -32767 0 0 0 0 0 0
1 -32768 -32768 32767 0 0 32767 0 0 0 0 0 0
1 32767 32767 -32768 0 0 -32767 0 0 0 0 0 0
ZUWD 0 0 0
1 500 0 0 0 0 500 0 0 0 0 0 0
1 0 0 0 0 0 0 0 0 0 0 0 0
1 -2147483648 0 0 0 0 -2147483647 0 0 0 0 0 0
1 2147483647 0 0 0 0 2147483647 0 0 0 0 0 0
1 -32768 0 0 0 0 -32768 0 0 0 0 0 0
SPBM 0 0 0
1 0 99 0 0 0 0 0 0 0 0 0 0
1 1 99 0 0 0 0 0 0 1 0 0 0
1 -1 99 0 0 0 0 0 0 1 0 0 0";

fn kind_named(name: &str) -> Option<Block> {
    (1..9)
        .filter_map(|number| Block::numbered(Edition::Series90, number))
        .find(|kind| kind.name() == name)
}

// The place of the window's first cell.
const FIRST: usize = 700;

// What the history is, once the window has the first cells of these, as many as the kind has.
fn history_with(kind: Block, cells: &[i32]) -> [i32; 1024] {
    let mut history = [9; 1024];
    let window = history.iter_mut().skip(FIRST);
    for (kept, cell) in window.zip(cells).take(usize::from(kind.cells())) {
        *kept = *cell;
    }
    history
}

fn scan_as_due(kind: Block, history: &mut [i32; 1024], values: [i32; 13]) -> bool {
    let [ms, a, b, c, d, e, p, q, r, jumps, x, y, z] = values;
    let call = Call {
        inputs: [a, b, c, d, e],
        ms: at_least_zero(ms),
    };
    let worked = work_block(kind, &call, history, FIRST);
    worked.outputs == [p, q, r]
        && worked.jumps == (jumps == 1)
        && *history == history_with(kind, &[x, y, z])
}

// Whether a line holds; a name begins a block anew. None where the line is neither.
fn holds(line: &str, kind: &mut Block, history: &mut [i32; 1024]) -> Option<bool> {
    if let Some((head, rest)) = line.split_once(' ') {
        if let Some(named) = kind_named(head) {
            *kind = named;
            *history = history_with(named, &numbers(rest)?);
            return Some(true);
        }
    }
    Some(scan_as_due(*kind, history, numbers(line)?))
}

#[test]
fn blocks_go_scan_by_scan(rt: HostRuntime) {
    let mut kind = Block::Esv;
    let mut history = [9; 1024];
    // the lines up to the first that does not hold
    let holding = SCANS
        .lines()
        .take_while(|line| holds(line, &mut kind, &mut history) == Some(true));
    assert_eq!(rt; holding.count(), 175);
}
