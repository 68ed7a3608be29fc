// The kinds of operands, their numbers, letters and what they hold.
ghost use Rattle.std.specs.Prelude.{◌≡◌};
ghost use Rattle.operand.specs.Kinds.{number_of, IsKindNumbered, letters_of, size_of};

#[derive(Clone, Copy, Debug, PartialEq, Eq)]
pub enum Kind {
    Input = 0,
    Output = 1,
    Marker = 2,
    Step = 3,
    Constant = 4,
    InputWord = 5,
    OutputWord = 6,
    MarkerWord = 7,
    ConstantWord = 8,
    MarkerDouble = 9,
    ConstantDouble = 10,
}

// A number that no kind has.
#[derive(Clone, Copy, Debug, PartialEq, Eq)]
pub struct UnknownKind(pub u16);

// What an operand holds.
#[derive(Clone, Copy, Debug, PartialEq, Eq)]
pub enum Size {
    Bit,
    Word,
    Double,
}

impl Kind {
    pub fn number(self) -> u16
        ensures { result ≡ number_of self }
    {
        self as u16
    }

    pub fn letters(self) -> &'static str
        ensures { result.now ≡ letters_of self }
    {
        match self {
            Kind::Input => "E",
            Kind::Output => "A",
            Kind::Marker => "M",
            Kind::Step => "S",
            Kind::Constant => "K",
            Kind::InputWord => "EW",
            Kind::OutputWord => "AW",
            Kind::MarkerWord => "MW",
            Kind::ConstantWord => "KW",
            Kind::MarkerDouble => "MD",
            Kind::ConstantDouble => "KD",
        }
    }

    pub fn size(self) -> Size
        ensures { result ≡ size_of self }
    {
        match self {
            Kind::Input | Kind::Output | Kind::Marker | Kind::Step | Kind::Constant => Size::Bit,
            Kind::InputWord | Kind::OutputWord | Kind::MarkerWord | Kind::ConstantWord =>
                Size::Word,
            Kind::MarkerDouble | Kind::ConstantDouble => Size::Double,
        }
    }
}

impl TryFrom<u16> for Kind {
    type Error = UnknownKind;

    ghost try_from_gives = { IsKindNumbered };

    fn try_from(number: u16) -> Result<Kind, UnknownKind> {
        match number {
            0 => Ok(Kind::Input),
            1 => Ok(Kind::Output),
            2 => Ok(Kind::Marker),
            3 => Ok(Kind::Step),
            4 => Ok(Kind::Constant),
            5 => Ok(Kind::InputWord),
            6 => Ok(Kind::OutputWord),
            7 => Ok(Kind::MarkerWord),
            8 => Ok(Kind::ConstantWord),
            9 => Ok(Kind::MarkerDouble),
            10 => Ok(Kind::ConstantDouble),
            _ => Err(UnknownKind(number)),
        }
    }
}
