// Why an image does not pass.
ghost use Rattle.std.specs.Prelude.{◌≡◌};
ghost use Rattle.checker.specs.Refusals.{of_view, told_of};

use told::Told;
use told::question::Question;
use view::OpenRefusal;

#[derive(Clone, Copy, Debug, PartialEq, Eq)]
pub enum CheckRefusal {
    // not six words, or the last is not AC31h
    NoTrailer,
    NoEdition,
    // the sizes do not agree, or pass the image or the limits
    NoFit,
    // the place of the first constant that is none or may not stand there
    NoConstant(usize),
    // of each of these the place of the first item at fault
    NoItem(usize),
    NoList(usize),
    TooDeep(usize),
    NoType(usize),
    NoTarget(usize),
    NoPin(usize),
    NoMark(usize),
    // the trailer's cells are not those of the calls, or too many
    NoCells,
}

impl CheckRefusal {
    // The question that got a no, and its place.
    pub fn told(self) -> Told
        ensures { result ≡ told_of self }
    {
        match self {
            CheckRefusal::NoTrailer => Question::Trailer.at(0),
            CheckRefusal::NoEdition => Question::Edition.at(0),
            CheckRefusal::NoFit => Question::Sizes.at(0),
            CheckRefusal::NoConstant(place) => Question::Constants.at(place),
            CheckRefusal::NoItem(place) => Question::Items.at(place),
            CheckRefusal::NoList(place) => Question::Grammar.at(place),
            CheckRefusal::TooDeep(place) => Question::Depth.at(place),
            CheckRefusal::NoType(place) => Question::Types.at(place),
            CheckRefusal::NoTarget(place) => Question::Targets.at(place),
            CheckRefusal::NoPin(place) => Question::Pins.at(place),
            CheckRefusal::NoMark(place) => Question::Marks.at(place),
            CheckRefusal::NoCells => Question::Cells.at(0),
        }
    }
}

impl From<OpenRefusal> for CheckRefusal {
    ghost from_gives = { λ e r. r ≡ of_view e };

    fn from(refusal: OpenRefusal) -> CheckRefusal {
        match refusal {
            OpenRefusal::NoTrailer => CheckRefusal::NoTrailer,
            OpenRefusal::NoEdition => CheckRefusal::NoEdition,
            OpenRefusal::NoFit => CheckRefusal::NoFit,
        }
    }
}
