// The place where the items begin no list.
ghost use Rattle.item.specs.declared.item.Item.{Item};
ghost use Rattle.decode.specs.Words.{items_of};
ghost use Rattle.rule.specs.Automata.{first_fault, known};
ghost use Rattle.grammar.specs.Grammar.{grammar};
ghost use Rattle.grammar.specs.Lists.{Judged};
ghost use Rattle.std.specs.Prelude.{◌≡◌, List};

use crate::automaton::Grammar;
use decode::items::Items;
use rule::pass::find_fault;

// The first item with which the items so far begin no list; their number where the list ends too early.
pub fn list_fault(items: Items) -> Option<usize>
    ensures first { result ≡ first_fault grammar (items_of items.entry.edition items.entry.words.now) }
    ensures judged { (xs : List Item) → items_of items.entry.edition items.entry.words.now ≡ known xs → Judged xs result }
{
    find_fault::<Grammar>(items)
}
