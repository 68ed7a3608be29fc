// The next mark with a number: where a jump goes.
ghost use Rattle.std.specs.Prelude.{◌≡◌, ◌/◌, ◌<◌, length};
ghost use Rattle.marks.specs.Marks.{mark_at, next_mark, Next};

use decode::items::Items;
use item::item::Item;

// The number of a mark item, as Mnemonic::Mark has it: a number that is asked of every item is a constant, and a call is none.
const MARK: u16 = 50;

// Whether the item at a place is the mark with that number. Asked of a place that there is, since its definition tells nothing of others. Only a mark has a mark's number, so no other item is decoded.
fn is_mark_at(items: Items, place: usize, mark: u16) -> bool
    requires { place < length items.words.now / 2 }
    ensures { result ≡ mark_at items.entry.edition items.entry.words.now mark place }
{
    items.words[2 * place] == MARK
        && matches!(items.get(place), Some(Item::Mark(found)) if found == mark)
}

fn first_mark(items: Items, from: usize, mark: u16) -> Option<usize>
    ensures { result ≡ next_mark items.entry.edition items.entry.words.now from mark }
{
    (from..items.len()).find(
        |&place|
            requires { place < length items.words.now / 2 }
        { is_mark_at(items, place, mark) },
    )
}

// The place of the next mark item with that number from a place on, if there is one.
#[tactic(auto, using(crate::proofs::Numbers::next_so))]
pub fn find_mark(items: Items, from: usize, mark: u16) -> Option<usize>
    ensures value { result ≡ next_mark items.entry.edition items.entry.words.now from mark }
    ensures next { Next items.entry.edition items.entry.words.now from mark result }
{
    first_mark(items, from, mark)
}
