// Question 11: each jump has its mark ahead.
ghost use Rattle.std.specs.Prelude.{◌≡◌, ◌/◌, ◌<◌, length};
ghost use Rattle.marks.specs.Jumps.{astray, direct_at, jump_fault, target_at};

use crate::mark::find_mark;
use catalogue::Block;
use decode::items::Items;
use item::item::Item;

// The value that stands directly at a place of the list. Here and below a match takes an item apart, which no method does.
fn direct_at(items: Items, place: usize) -> Option<u16>
    ensures { result ≡ direct_at items.entry.edition items.entry.words.now place }
{
    match items.get(place) {
        Some(Item::Direct(word)) => Some(word),
        _ => None,
    }
}

// The mark that the jump named at a place goes to: its second pin. Asked of a place that there is: tried of any, and the proof did not close.
fn target_at(items: Items, place: usize) -> Option<u16>
    requires { place < length items.words.now / 2 }
    ensures { result ≡ target_at items.entry.edition items.entry.words.now place }
{
    match items.get(place) {
        Some(Item::Kind(Block::Spbm)) => direct_at(items, place + 2),
        _ => None,
    }
}

// Whether the item at a place names a jump whose mark is not ahead. Asked of a place that there is, as the mark is. By a match:
// tried by `is_some_and`, and the proof did not close.
fn is_astray(items: Items, place: usize) -> bool
    requires { place < length items.words.now / 2 }
    ensures { result ≡ astray items.entry.edition items.entry.words.now place }
{
    match target_at(items, place) {
        Some(mark) => find_mark(items, place + 1, mark).is_none(),
        None => false,
    }
}

// The place of the first block kind that jumps and has no mark ahead.
pub fn jump_fault(items: Items) -> Option<usize>
    ensures { result ≡ jump_fault items.entry.edition items.entry.words.now }
{
    (0..items.len()).find(
        |&place|
            requires { place < length items.words.now / 2 }
        { is_astray(items, place) },
    )
}
