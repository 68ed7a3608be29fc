// Bits at pins and in cells, and what a block tells.
ghost use Rattle.std.specs.Prelude.{◌≡◌, true, not, ◌&&◌};
ghost use Rattle.number.specs.Limits.{corrected, lawful};
ghost use Rattle.number.specs.declared.limit.Width.TheVariants.{Word};
ghost use Rattle.blocks.specs.Pins.{on, three_outputs, one_output};

use block::worked::Worked;
use number::limit::{Width, correct};

// A bit is 1 when it is not 0.
pub fn is_on(value: i32) -> bool
    ensures { result ≡ on value }
{
    value != 0
}

// Whether a bit rises over the one that was kept.
pub fn rises(value: i32, kept: i32) -> bool
    ensures { result ≡ on value && not (on kept) }
{
    is_on(value) && !is_on(kept)
}

// A word as a block reads it: a forbidden one is corrected.
pub fn word_of(value: i32) -> i32
    ensures value { result ≡ corrected Word value }
    ensures lawful { lawful Word result ≡ true }
{
    correct(Width::Word, value)
}

pub fn three_outputs(a: i32, b: i32, c: i32) -> Worked
    ensures { result ≡ three_outputs a b c }
{
    Worked {
        outputs: [a, b, c],
        jumps: false,
    }
}

pub fn one_output(a: i32) -> Worked
    ensures { result ≡ one_output a }
{
    three_outputs(a, 0, 0)
}
