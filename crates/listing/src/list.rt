// Listing an image into a lent buffer.
ghost use Rattle.std.specs.Prelude.{◌≡◌, length};
ghost use Rattle.checker.specs.Verdict.{seen};
ghost use Rattle.lay.specs.Lays.{Lays, Puts};
ghost use Rattle.listing.specs.Lines.{line_of, item_lines, constant_lines, listing_of};
ghost use Rattle.listing.specs.Listed.{answered, due_for, fitted, left_by, text_of, Opened};
ghost use Rattle.constants.specs.Decoded.{constants_of};
ghost use Rattle.decode.specs.Words.{items_of};

use crate::refusal::ListRefusal;
use checker::check::judge_known;
use checker::refusal::CheckRefusal;
use constants::decode::Constants;
use decode::items::Items;
use lay::pen::Pen;
use script::Script;
use view::{Image, view_image};

fn put_line<T: Script>(pen: &mut Pen, entry: Option<T>)
    ensures { Puts pen.old (line_of T.Script.text entry) pen.new }
{
    if let Some(entry) = entry {
        entry.put_on(pen);
        pen.put_byte(b'\n');
    }
}

// Items and constants each in a loop: what a type parameter's iterator gives is not told by its bound alone.
fn put_items(pen: &mut Pen, items: Items)
    ensures { Puts pen.old (item_lines (items_of items.entry.edition items.entry.words.now)) pen.new }
{
    for item in items {
        put_line(pen, item);
    }
}

fn put_constants(pen: &mut Pen, constants: Constants)
    ensures { Puts pen.old (constant_lines (constants_of constants.entry.edition constants.entry.words.now)) pen.new }
{
    for constant in constants {
        put_line(pen, constant);
    }
}

fn put_listing(pen: &mut Pen, image: Image)
    ensures { Puts pen.old (listing_of (seen image.entry)) pen.new }
{
    put_items(pen, image.items());
    put_constants(pen, image.constants());
}

// Writes the listing first into the buffer, as far as it finds room, and tells how long it is.
fn write_listing(out: &mut [u8], image: Image) -> usize
    ensures { Lays out.old 0 (listing_of (seen image.entry)) out.new result }
{
    let mut pen = Pen::new(out);
    put_listing(&mut pen, image);
    pen.at
}

// Writes a listing that fits first into the buffer; one that does not is not written.
fn put_fitting(out: &mut [u8], image: Image) -> Result<usize, ListRefusal>
    ensures answer { answered result ≡ fitted (listing_of (seen image.entry)) (length out.old) }
    ensures left { out.new ≡ left_by result (listing_of (seen image.entry)) out.old }
{
    let needed = write_listing(&mut [], image);
    if needed > out.len() {
        return Err(ListRefusal::TooLong);
    }
    Ok(write_listing(out, image))
}

// The parts of an image that has a listing.
fn open(words: &[u16]) -> Result<Image<'_>, CheckRefusal>
    ensures { Opened words.now result }
{
    let image = view_image(words)?;
    judge_known(image)?;
    Ok(image)
}

// Lists an image: its text stands first in the buffer, and the rest is as before; a refusal leaves it all.
pub fn list_image(words: &[u16], out: &mut [u8]) -> Result<usize, ListRefusal>
    ensures answer { answered result ≡ due_for words.now (length out.old) }
    ensures left { out.new ≡ left_by result (text_of words.now) out.old }
{
    let image = open(words)?;
    put_fitting(out, image)
}
