// Writing an image: items, constants and trailer, into a lent buffer.
ghost use Rattle.std.specs.Prelude.{◌≡◌, ℕ, ◌+◌, ◌≤◌, List as ListOf, length};
ghost use Rattle.std.specs.List.{flat_map};
ghost use Rattle.image.specs.Images.{item_pair, constant_triple, cells_sum, image_length, most_items, most_constants, words_of};
ghost use Rattle.image.specs.Writes.{counts_of, laid, first_laid, write_answer, write_left};

use crate::constant::Constant;
use item::item::Item;
use operand::edition::Edition;

pub const MOST_ITEMS: usize = 4096;

pub const MOST_CONSTANTS: usize = 768;

// The last word of every image.
pub const IDENTIFIER: u16 = 0xAC31;

// What stands in the buffer: how many words, items, constants and history cells.
#[derive(Clone, Copy, Debug, PartialEq)]
pub struct Written {
    pub length: usize,
    pub items: u16,
    pub constants: u16,
    pub cells: u16,
}

#[derive(Clone, Copy, Debug, PartialEq)]
pub enum WriteRefusal {
    TooMany,
    TooLong,
}

// Puts words into the buffer from a place on; returns the place after them. Buffer and place stay apart: what is laid is told of the whole buffer.
fn put(buffer: &mut [u16], at: usize, words: &[u16]) -> usize
    requires { at + length words.now ≤ length buffer.old }
    ensures next { result ≡ at + length words.now }
    ensures left { buffer.new ≡ laid buffer.old at words.now }
{
    let end = at + words.len();
    buffer[at..end].copy_from_slice(words);
    end
}

// What an image has words for.
trait Encoded: Copy {
    ghost words: { Self → ListOf ℕ };

    // Puts its words into the buffer from a place on; returns the place after them.
    fn put(self, buffer: &mut [u16], at: usize) -> usize
        requires { at + length (words self) ≤ length buffer.old }
        ensures next { result ≡ at + length (words self) }
        ensures left { buffer.new ≡ laid buffer.old at (words self) };
}

impl Encoded for Item {
    ghost words = { item_pair };

    fn put(self, buffer: &mut [u16], at: usize) -> usize {
        put(buffer, at, &[self.number(), self.argument()])
    }
}

impl Encoded for Constant {
    ghost words = { constant_triple };

    fn put(self, buffer: &mut [u16], at: usize) -> usize {
        put(buffer, at, &[self.operand.code(), self.low(), self.high()])
    }
}

// Puts the words of things of one kind, one thing after another.
fn put_all<E: Encoded>(buffer: &mut [u16], from: usize, things: &[E]) -> usize
    requires { from + length (flat_map E.Encoded.words things.now) ≤ length buffer.old }
    ensures next { result ≡ from + length (flat_map E.Encoded.words things.now) }
    ensures left { buffer.new ≡ laid buffer.old from (flat_map E.Encoded.words things.now) }
{
    let mut at = from;
    for thing in things {
        at = thing.put(buffer, at);
    }
    at
}

// A list of no more items and constants than an image may have.
#[derive(Clone, Copy)]
struct List<'a> {
    edition: Edition,
    items: &'a [Item],
    constants: &'a [Constant],
    ghost items_fit: { length items.now ≤ most_items },
    ghost constants_fit: { length constants.now ≤ most_constants },
}

impl<'a> List<'a> {
    fn cells(self) -> u16
        ensures { result ≡ cells_sum self.entry.items.now }
    {
        self.items.iter().map(|item| item.cells()).sum()
    }

    // How many words the image has.
    fn length(self) -> usize
        ensures count { result ≡ image_length self.entry.items.now self.entry.constants.now }
        ensures words { result ≡ length (words_of self.entry.edition self.entry.items.now self.entry.constants.now) }
    {
        2 * self.items.len() + 3 * self.constants.len() + 6
    }

    fn counts(self) -> Written
        ensures { result ≡ counts_of self.entry.edition self.entry.items.now self.entry.constants.now }
    {
        Written {
            length: self.length(),
            items: self.items.len() as u16,
            constants: self.constants.len() as u16,
            cells: self.cells(),
        }
    }

    // Puts the whole image first into the buffer.
    fn put(self, buffer: &mut [u16]) -> Written
        requires { image_length self.items.now self.constants.now ≤ length buffer.old }
        ensures counts { result ≡ counts_of self.entry.edition self.entry.items.now self.entry.constants.now }
        ensures left { buffer.new ≡ first_laid buffer.old (words_of self.entry.edition self.entry.items.now self.entry.constants.now) }
    {
        let counts = self.counts();
        let next = put_all(buffer, 0, self.items);
        let next = put_all(buffer, next, self.constants);
        put(
            buffer,
            next,
            &[
                counts.length as u16,
                counts.items,
                counts.constants,
                counts.cells,
                self.edition.number(),
                IDENTIFIER,
            ],
        );
        counts
    }
}

// Writes the image of a list first into the buffer and leaves the rest of it; a refusal leaves it all.
pub fn write(
    edition: Edition,
    items: &[Item],
    constants: &[Constant],
    buffer: &mut [u16],
) -> Result<Written, WriteRefusal>
    ensures answer { result ≡ write_answer edition items.now constants.now (length buffer.old) }
    ensures left { buffer.new ≡ write_left result (words_of edition items.now constants.now) buffer.old }
{
    if items.len() > MOST_ITEMS || constants.len() > MOST_CONSTANTS {
        return Err(WriteRefusal::TooMany);
    }
    let list = List {
        edition,
        items,
        constants,
    };
    if list.length() > buffer.len() {
        return Err(WriteRefusal::TooLong);
    }
    Ok(list.put(buffer))
}
