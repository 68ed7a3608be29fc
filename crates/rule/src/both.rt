// Two questions put at once.
ghost use Rattle.rule.specs.Pair.{both};
ghost use Rattle.std.specs.Prelude.{◌≡◌};
ghost use Rattle.rule.specs.Pairing.{pair_anew, pair_opened};

use crate::rule::Rule;
use item::item::Item;

#[derive(Clone, Copy)]
pub struct Both<A, B> {
    pub one: A,
    pub two: B,
}

impl<A: Rule, B: Rule> Rule for Both<A, B> {
    ghost automaton = { both A.Rule.automaton B.Rule.automaton };

    ghost anew = { λ s t m e. pair_anew A.Rule.automaton B.Rule.automaton A.Rule.anew B.Rule.anew s t m e };

    ghost opened = { λ s t i o e. pair_opened A.Rule.automaton B.Rule.automaton A.Rule.opened B.Rule.opened s t i o e };

    fn start() -> Self {
        Both {
            one: A::start(),
            two: B::start(),
        }
    }

    fn step(self, item: Item) -> Option<Self> {
        Some(Both {
            one: self.one.step(item)?,
            two: self.two.step(item)?,
        })
    }

    fn ends(self) -> bool {
        self.one.ends() && self.two.ends()
    }
}
