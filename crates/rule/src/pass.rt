// One pass over the items finds the first that a rule refuses.
ghost use Rattle.std.specs.Prelude.{◌≡◌};
ghost use Rattle.decode.specs.Words.{items_of};
ghost use Rattle.rule.specs.Automata.{first_fault, stepped};

use crate::rule::Rule;
use decode::items::Items;
use item::item::Item;

// The state behind one more item; none where it is unknown or at fault.
fn advance<R: Rule>(state: R, item: Option<Item>) -> Option<R>
    ensures { result ≡ stepped R.Rule.automaton state item }
{
    state.step(item?)
}

// The place of the first item that is unknown or that the rule refuses; their number where the list ends too early.
#[tactic(auto, using(crate::proofs::Passing::passing))]
pub fn find_fault<R: Rule>(items: Items) -> Option<usize>
    ensures { result ≡ first_fault R.Rule.automaton (items_of items.entry.edition items.entry.words.now) }
{
    let mut state = R::start();
    for (place, item) in items.enumerate() {
        let Some(next) = advance(state, item) else {
            return Some(place);
        };
        state = next;
    }
    (!state.ends()).then_some(items.len())
}
