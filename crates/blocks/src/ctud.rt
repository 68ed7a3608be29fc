// CTUD, the counter up and down.
ghost use Rattle.std.specs.Prelude.{◌≡◌, int_le, pos};
ghost use Rattle.blocks.specs.Pins.{bit, three_outputs};
ghost use Rattle.blocks.specs.Ctud.{ctud, counted_up, counted_down, counted, counted_on, counter_value, counter_cells};
ghost use Rattle.blocks.specs.Holding.{ctud_fits};
ghost use Rattle.std.proofs.Common.{rules};

use crate::pins::{is_on, rises, three_outputs, word_of};
use block::call::Call;
use block::kind::BlockKind;
use block::worked::Worked;
use catalogue::Block;

pub struct Ctud;

// One up for a rise, below the largest word.
fn count_up(rise: bool, cv: i32) -> i32
    ensures { result ≡ counted_up rise cv }
{
    if rise && cv < 32_767 { cv + 1 } else { cv }
}

// One down for a rise, above the lowest word.
fn count_down(rise: bool, cv: i32) -> i32
    ensures { result ≡ counted_down rise cv }
{
    if rise && cv > -32_767 { cv - 1 } else { cv }
}

// What the two rises make of the count: up before down.
fn count(up: bool, down: bool, cv: i32) -> i32
    ensures { result ≡ counted up down cv }
{
    count_down(down, count_up(up, cv))
}

fn count_rises(inputs: &[i32; 5], cells: &[i32; 3]) -> i32
    ensures { result ≡ counted_on inputs.now cells.now }
{
    let up = rises(inputs[0], cells[0]);
    let down = rises(inputs[1], cells[1]);
    count(up, down, word_of(cells[2]))
}

// RESET goes before LOAD, and LOAD before counting.
fn next_value(inputs: &[i32; 5], cells: &[i32; 3]) -> i32
    ensures { result ≡ counter_value inputs.now cells.now }
{
    if is_on(inputs[2]) {
        0
    } else if is_on(inputs[3]) {
        word_of(inputs[4])
    } else {
        count_rises(inputs, cells)
    }
}

// The edges are kept under RESET and LOAD too.
fn keep_count(inputs: &[i32; 5], cells: &mut [i32; 3]) -> i32
    ensures told { result ≡ counter_value inputs.now cells.old }
    ensures kept { cells.new ≡ counter_cells inputs.now cells.old }
{
    let cv = next_value(inputs, cells);
    cells[0] = i32::from(is_on(inputs[0]));
    cells[1] = i32::from(is_on(inputs[1]));
    cells[2] = cv;
    cv
}

fn tell_count(pv: i32, cv: i32) -> Worked
    ensures { result ≡ three_outputs (bit (int_le pv cv)) (bit (int_le cv (pos 0))) cv }
{
    three_outputs(i32::from(cv >= pv), i32::from(cv <= 0), cv)
}

impl BlockKind for Ctud {
    ghost meaning = { ctud };

    ghost small = { Prim.search rules };

    ghost lawful = { ctud_fits };

    fn cells(&self) -> u16 {
        Block::Ctud.cells()
    }

    #[tactic(auto, unfolding(crate::specs::Ctud::ctud_gives))]
    fn work(&self, call: &Call, cells: &mut [i32; 3]) -> Worked {
        let cv = keep_count(&call.inputs, cells);
        tell_count(word_of(call.inputs[4]), cv)
    }
}
