// A question over the items of a list.
ghost use Rattle.std.specs.Prelude.{◌≡◌, ℕ, true, Some};
ghost use Rattle.item.specs.declared.item.Item.{Item};
ghost use Rattle.item.specs.declared.item.Item.TheVariants.{Mark};
ghost use Rattle.rule.specs.Automata.{Automaton, opens};

use item::item::Item;

// A value is what has been seen so far.
pub trait Rule: Sized + Copy {
    ghost automaton: { Automaton Self };

    fn start() -> Self
        ensures { result ≡ automaton.start };

    // The state behind one more item; none where the item is at fault.
    fn step(self, item: Item) -> Option<Self>
        ensures { result ≡ automaton.step self item };

    // Whether the list may end here. Without a body: one that says yes would have to be right of every automaton.
    fn ends(self) -> bool
        ensures { result ≡ automaton.ends self };

    // A mark that is let in leads to the start.
    ghost anew: { (s t : Self) (m : ℕ) → automaton.step s (Mark m) ≡ Some t → t ≡ automaton.start };

    // A start, call, mark or end that is let in leads where it leads from the start.
    ghost opened: { (s t : Self) (i : Item) → opens i ≡ true → automaton.step s i ≡ Some t → automaton.step automaton.start i ≡ Some t };
}
