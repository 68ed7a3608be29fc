// The questions by number, and in words.
ghost use Rattle.std.specs.Prelude.{◌≡◌};
ghost use Rattle.told.specs.Questions.{number_of, numbered, told_at, words_of};

use crate::Told;

#[derive(Clone, Copy, Debug, PartialEq, Eq)]
pub enum Question {
    Trailer = 1,
    Edition = 2,
    Sizes = 3,
    Constants = 4,
    Items = 5,
    Grammar = 6,
    Depth = 7,
    Types = 8,
    Targets = 9,
    Pins = 10,
    Marks = 11,
    Cells = 12,
    Tokens = 19,
    Followers = 20,
    Counts = 21,
    Room = 22,
}

// A number that no question has.
#[derive(Clone, Copy, Debug, PartialEq, Eq)]
pub struct UnknownQuestion(pub u16);

impl Question {
    pub fn number(self) -> u16
        ensures { result ≡ number_of self }
    {
        self as u16
    }

    // What is told where the question gets a no at a place.
    pub fn at(self, place: usize) -> Told
        ensures { result ≡ told_at self place }
    {
        Told {
            question: self.number(),
            place,
        }
    }

    pub fn words(self) -> &'static str
        ensures { result.now ≡ words_of self }
    {
        match self {
            Question::Trailer => "are there six words, the last of them AC31h?",
            Question::Edition => "is the edition known?",
            Question::Sizes => "do the sizes agree, within the image and the limits?",
            Question::Constants => "are the constants lawful and in rising order?",
            Question::Items => "is each item known and its argument in range?",
            Question::Grammar => "can a list begin with the items so far?",
            Question::Depth => "are brackets at most 15 deep?",
            Question::Types => "do types fit?",
            Question::Targets => "are assigned operands writable, a step only under `=`?",
            Question::Pins => "do pins fit their blocks?",
            Question::Marks => "has each jump its mark ahead?",
            Question::Cells => "do the cells agree with the calls, 1024 at most?",
            Question::Tokens => "is each token known?",
            Question::Followers => "does each token fit the one before?",
            Question::Counts => "are there at most 4096 items and 768 constants?",
            Question::Room => "does the result fit the buffer?",
        }
    }
}

impl TryFrom<u16> for Question {
    type Error = UnknownQuestion;

    ghost try_from_gives = { λ number r. r ≡ numbered number };

    fn try_from(number: u16) -> Result<Self, UnknownQuestion> {
        match number {
            1 => Ok(Question::Trailer),
            2 => Ok(Question::Edition),
            3 => Ok(Question::Sizes),
            4 => Ok(Question::Constants),
            5 => Ok(Question::Items),
            6 => Ok(Question::Grammar),
            7 => Ok(Question::Depth),
            8 => Ok(Question::Types),
            9 => Ok(Question::Targets),
            10 => Ok(Question::Pins),
            11 => Ok(Question::Marks),
            12 => Ok(Question::Cells),
            19 => Ok(Question::Tokens),
            20 => Ok(Question::Followers),
            21 => Ok(Question::Counts),
            22 => Ok(Question::Room),
            _ => Err(UnknownQuestion(number)),
        }
    }
}
