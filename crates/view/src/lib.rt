// A view over the words of an image.
#![tactic(auto)]

ghost use Rattle.std.specs.Prelude.{◌≡◌};
ghost use Rattle.view.specs.Trailers.{trailer_in, sizes_agree, Opens, InTurn};
ghost use Rattle.view.specs.declared.OpenRefusal.TheVariants.{NoEdition};

use constants::decode::Constants;
use decode::items::Items;
use image::write::{IDENTIFIER, MOST_CONSTANTS, MOST_ITEMS};
use operand::edition::{Edition, UnknownEdition};

// The parts of an image whose trailer is in order, both of one edition. Words before the first item are not seen.
#[derive(Clone, Copy)]
pub struct Image<'a> {
    pub edition: Edition,
    // two words each: number, argument
    pub items: &'a [u16],
    // three words each: operand code, low word, high word
    pub constants: &'a [u16],
    // the history cells that the trailer tells
    pub cells: u16,
}

impl<'a> Image<'a> {
    pub fn items(self) -> Items<'a>
        ensures edition { result.edition ≡ self.entry.edition }
        ensures words { result.words.now ≡ self.entry.items.now }
    {
        Items {
            edition: self.edition,
            words: self.items,
        }
    }

    pub fn constants(self) -> Constants<'a>
        ensures edition { result.edition ≡ self.entry.edition }
        ensures words { result.words.now ≡ self.entry.constants.now }
    {
        Constants {
            edition: self.edition,
            words: self.constants,
        }
    }
}

#[derive(Clone, Copy, Debug, PartialEq, Eq)]
pub enum OpenRefusal {
    // not six words, or the last is not AC31h
    NoTrailer,
    NoEdition,
    // the sizes do not agree, or pass the image or the limits
    NoFit,
}

impl From<UnknownEdition> for OpenRefusal {
    ghost from_gives = { λ e r. r ≡ NoEdition };

    fn from(_unknown: UnknownEdition) -> OpenRefusal {
        OpenRefusal::NoEdition
    }
}

// The words at the end of an image, but for the identifier behind them.
#[derive(Clone, Copy)]
struct Trailer {
    back: u16,
    items: u16,
    constants: u16,
    cells: u16,
    edition: u16,
}

// The trailer, where there are six words and the last is the identifier.
fn trailer_of(words: &[u16]) -> Option<Trailer>
    ensures { result ≡ trailer_in words.now }
{
    let [back, items, constants, cells, edition, identifier] = *words.last_chunk::<6>()?;
    (identifier == IDENTIFIER).then_some(Trailer {
        back,
        items,
        constants,
        cells,
        edition,
    })
}

impl Trailer {
    // Whether the sizes agree, lie within so many words and keep the limits.
    fn fits(self, words: usize) -> bool
        ensures { result ≡ sizes_agree self.back self.items self.constants words }
    {
        let back = usize::from(self.back);
        let items = usize::from(self.items);
        let constants = usize::from(self.constants);
        back == 2 * items + 3 * constants + 6
            && back <= words
            && items <= MOST_ITEMS
            && constants <= MOST_CONSTANTS
    }
}

// The parts of an image, or the first of the questions 1 to 3 that gets a no.
pub fn view_image<'a>(words: &'a [u16]) -> Result<Image<'a>, OpenRefusal>
    ensures opens { Opens words.now result }
    ensures in_turn { InTurn words.now result }
{
    let trailer = trailer_of(words).ok_or(OpenRefusal::NoTrailer)?;
    let edition = Edition::try_from(trailer.edition)?;
    if !trailer.fits(words.len()) {
        return Err(OpenRefusal::NoFit);
    }
    let first = words.len() - usize::from(trailer.back);
    let behind = first + 2 * usize::from(trailer.items);
    let end = behind + 3 * usize::from(trailer.constants);
    Ok(Image {
        edition,
        items: &words[first..behind],
        constants: &words[behind..end],
        cells: trailer.cells,
    })
}
