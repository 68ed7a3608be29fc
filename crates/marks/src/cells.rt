// Question 12: the history cells of all calls.
ghost use Rattle.std.specs.Prelude.{◌≡◌, ◌*◌, ◌/◌, ◌<◌, ◌≤◌, length, slice_index};
ghost use Rattle.decode.specs.Words.{item_at};
ghost use Rattle.marks.specs.Cells.{cells_asked, all_cells};

use decode::items::Items;
use item::item::Nameless;

// The number of an item that names a block kind.
const KIND: u16 = Nameless::Kind as u16;

// The cells that the item at a place asks for: those of the block kind that it names.
// Only an item that names one has its number, so no other item is decoded. Asked of a place that there is, by the loop that walks them.
fn cells_at(items: Items, place: usize, number: u16) -> usize
    requires { (place < length items.words.now / 2) × (number ≡ slice_index items.words.now (2 * place)) }
    ensures value { result ≡ cells_asked (item_at items.entry.edition items.entry.words.now place) }
    ensures bound { result ≤ 3 }
{
    if number != KIND {
        return 0;
    }
    items.get(place).map_or(0, |item| usize::from(item.cells()))
}

// The history cells of all calls.
#[tactic(auto, using(crate::proofs::Sums::adding))]
pub fn count_cells(items: Items) -> usize
    ensures { result ≡ all_cells items.entry.edition items.entry.words.now }
{
    let (pairs, _) = items.words.as_chunks::<2>();
    let mut cells = 0;
    for (place, pair) in pairs.iter().enumerate() {
        cells += cells_at(items, place, pair[0]);
    }
    cells
}
