// Question 5: each item is known. An unknown one is at fault for every rule, so nothing else is asked.
ghost use Rattle.fitting.specs.Known.{knowns};
ghost use Rattle.std.specs.Prelude.{◌≡◌};
ghost use Rattle.std.proofs.Common.{rules};

use item::item::Item;
use rule::rule::Rule;

// Nothing need be kept from item to item. A type of its own beside Targets, since a rule is told by its type.
#[derive(Clone, Copy, Debug, PartialEq, Eq)]
pub struct Known;

impl Rule for Known {
    ghost automaton = { knowns };

    ghost anew = { Prim.search rules };

    ghost opened = { Prim.search rules };

    fn start() -> Self {
        Known
    }

    fn step(self, _item: Item) -> Option<Self> {
        Some(self)
    }

    fn ends(self) -> bool {
        true
    }
}
