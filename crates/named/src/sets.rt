// The named points of a list as two sets.
ghost use Rattle.std.specs.Prelude.{◌≡◌, ℕ, ◌/◌, ◌<◌, false, ◌||◌, length, slice_index_or};
ghost use Rattle.named.specs.Sets.{Has, is_point};
ghost use Rattle.named.specs.declared.point.Side.TheVariants.{Input, Output};

use crate::point::{NamedPoint, Side, known_point};
use decode::items::Items;

// A flag for each point: whether an item names its input, and whether one names its output.
// Two sets and no table of pairs: a caller hands on each whole, in fixed memory.
#[derive(Clone, Copy)]
pub struct Named {
    pub inputs: [bool; 192],
    pub outputs: [bool; 192],
}

fn mark(set: &mut [bool; 192], side: Side, named: Option<NamedPoint>)
    ensures { (p : ℕ) → p < 192 → slice_index_or set.new p false ≡ (slice_index_or set.old p false || is_point side p named) }
{
    if let Some(named) = named {
        if named.side == side && named.point < 192 {
            set[usize::from(named.point)] = true;
        }
    }
}

fn set_of(items: Items, side: Side) -> [bool; 192]
    ensures { Has items.entry.edition items.entry.words.now side (length items.entry.words.now / 2) result }
{
    let mut set = [false; 192];
    for item in items {
        mark(&mut set, side, known_point(item));
    }
    set
}

// The points that the items name.
pub fn named_points(items: Items) -> Named
    ensures inputs { Has items.entry.edition items.entry.words.now Input (length items.entry.words.now / 2) result.inputs }
    ensures outputs { Has items.entry.edition items.entry.words.now Output (length items.entry.words.now / 2) result.outputs }
{
    Named {
        inputs: set_of(items, Side::Input),
        outputs: set_of(items, Side::Output),
    }
}
