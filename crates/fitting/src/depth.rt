// Question 7: at most 15 brackets are open at once.
ghost use Rattle.fitting.specs.Depth.{depths};
ghost use Rattle.std.specs.Prelude.{◌≡◌};
ghost use Rattle.std.proofs.Common.{rules};

use item::item::Item;
use rule::rule::Rule;

// How many brackets are open.
#[derive(Clone, Copy, Debug, PartialEq, Eq)]
pub struct Depth {
    pub brackets: u8,
}

impl Rule for Depth {
    ghost automaton = { depths };

    ghost anew = { Prim.search rules };

    ghost opened = { Prim.search rules };

    fn start() -> Self {
        Depth { brackets: 0 }
    }

    fn step(self, item: Item) -> Option<Self> {
        match item {
            Item::Open(_) => (self.brackets < 15).then(|| Depth {
                brackets: self.brackets + 1,
            }),
            Item::Close => Some(Depth {
                brackets: self.brackets.saturating_sub(1),
            }),
            Item::Start(_) | Item::Call(_) | Item::Mark(_) | Item::End => Some(Depth {
                brackets: 0,
            }),
            _ => Some(self),
        }
    }

    fn ends(self) -> bool {
        true
    }
}
