// Why an image is not listed.
ghost use Rattle.std.specs.Prelude.{◌≡◌};
ghost use Rattle.listing.specs.Refusals.{of_check, told_of};

use checker::refusal::CheckRefusal;
use told::Told;
use told::question::Question;

#[derive(Clone, Copy, Debug, PartialEq, Eq)]
pub enum ListRefusal {
    // one of the questions 1 to 5 got a no
    NotListed(CheckRefusal),
    // the listing does not fit the buffer
    TooLong,
}

impl ListRefusal {
    // The question that got a no, and its place.
    pub fn told(self) -> Told
        ensures { result ≡ told_of self }
    {
        match self {
            ListRefusal::NotListed(refusal) => refusal.told(),
            ListRefusal::TooLong => Question::Room.at(0),
        }
    }
}

impl From<CheckRefusal> for ListRefusal {
    ghost from_gives = { λ e r. r ≡ of_check e };

    fn from(refusal: CheckRefusal) -> ListRefusal {
        ListRefusal::NotListed(refusal)
    }
}
