// Why a text is not translated.
ghost use Rattle.std.specs.Prelude.{◌≡◌};
ghost use Rattle.translate.specs.Refusals.{told_of, of_token, of_read, of_write};

use image::write::WriteRefusal;
use reader::read::ReadRefusal;
use token::token::TokenRefusal;
use told::Told;
use told::question::Question;

#[derive(Clone, Copy, Debug, PartialEq)]
pub enum Refusal {
    // the byte place of the first token that is not known
    Unknown(usize),
    // the byte place of the first token that does not fit the one before; the text's end where one is missing
    Misplaced(usize),
    // more items or constants than an image holds
    TooMany,
    // the image does not fit the buffer
    TooLong,
    NoMemory,
}

impl Refusal {
    // The question that got a no, and its place; want of memory is no question's answer.
    pub fn told(self) -> Option<Told>
        ensures { result ≡ told_of self }
    {
        match self {
            Refusal::Unknown(place) => Some(Question::Tokens.at(place)),
            Refusal::Misplaced(place) => Some(Question::Followers.at(place)),
            Refusal::TooMany => Some(Question::Counts.at(0)),
            Refusal::TooLong => Some(Question::Room.at(0)),
            Refusal::NoMemory => None,
        }
    }
}

impl From<TokenRefusal> for Refusal {
    ghost from_gives = { λ e r. r ≡ of_token e };

    fn from(refusal: TokenRefusal) -> Refusal {
        match refusal {
            TokenRefusal::Unknown { place } => Refusal::Unknown(place),
            TokenRefusal::NoMemory => Refusal::NoMemory,
        }
    }
}

impl From<ReadRefusal> for Refusal {
    ghost from_gives = { λ e r. r ≡ of_read e };

    fn from(refusal: ReadRefusal) -> Refusal {
        match refusal {
            ReadRefusal::Misplaced(place) => Refusal::Misplaced(place),
            ReadRefusal::NoMemory => Refusal::NoMemory,
        }
    }
}

impl From<WriteRefusal> for Refusal {
    ghost from_gives = { λ e r. r ≡ of_write e };

    fn from(refusal: WriteRefusal) -> Refusal {
        match refusal {
            WriteRefusal::TooMany => Refusal::TooMany,
            WriteRefusal::TooLong => Refusal::TooLong,
        }
    }
}
