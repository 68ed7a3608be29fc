// The items of a list, read in place from their words.
ghost use Rattle.std.specs.Iterator.{YieldsFirst, at_most};
ghost use Rattle.std.specs.Prelude.{◌≡◌, ◌/◌, length};
ghost use Rattle.decode.specs.Words.{item_in, items_of};

use crate::decode_item;
use item::item::Item;
use operand::edition::Edition;

// An edition and the words of a list's items, two words each: number and argument.
// As an iterator it gives each item, or none in its place where it is unknown; half an item at the end is left out.
#[derive(Clone, Copy)]
pub struct Items<'a> {
    pub edition: Edition,
    pub words: &'a [u16],
}

impl<'a> Items<'a> {
    // How many items there are.
    pub fn len(self) -> usize
        ensures { result ≡ length self.entry.words.now / 2 }
    {
        self.words.len() / 2
    }

    // The item at a place; none where it is unknown, or behind the last item.
    pub fn get(self, place: usize) -> Option<Item>
        ensures { result ≡ item_in self.entry.edition self.entry.words.now place }
    {
        // By place: tried by chunks of two, and the proof did not close.
        if place < self.len() {
            decode_item(
                self.edition,
                self.words[2 * place],
                self.words[2 * place + 1],
            )
        } else {
            None
        }
    }
}

impl<'a> Iterator for Items<'a> {
    type Item = Option<Item>;

    ghost next_gives = { YieldsFirst (λ s. items_of s.edition s.words.now) };

    ghost remaining = { λ s. at_most (length s.words.now / 2) };

    #[tactic(auto, using(crate::proofs::Places::items_next, crate::proofs::Places::short))]
    fn next(&mut self) -> Option<Option<Item>> {
        let (pair, rest) = self.words.split_first_chunk::<2>()?;
        self.words = rest;
        Some(decode_item(self.edition, pair[0], pair[1]))
    }
}
