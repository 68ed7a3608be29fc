// Editions of the instruction list, and the operands that each has.
ghost use Rattle.std.specs.Prelude.{◌≡◌, true};
ghost use Rattle.operand.specs.Ranges.{all_lawful, edition_number, IsEditionNumbered, ranges_of, any_holds, range_holds};

use crate::kind::Kind;

#[derive(Clone, Copy, Debug, PartialEq, Eq)]
pub enum Edition {
    Series90 = 90,
}

// A number that no edition has.
#[derive(Clone, Copy, Debug, PartialEq, Eq)]
pub struct UnknownEdition(pub u16);

// The places of a kind from `first` to `last`; a place is 16 × group + channel.
#[derive(Clone, Copy, Debug, PartialEq, Eq)]
pub struct Range {
    pub kind: Kind,
    pub first: u16,
    pub last: u16,
}

static SERIES_90: [Range; 11] = [
    Range {
        kind: Kind::Input,
        first: 0,
        last: 1023,
    },
    Range {
        kind: Kind::Output,
        first: 0,
        last: 1023,
    },
    Range {
        kind: Kind::Marker,
        first: 0,
        last: 4095,
    },
    Range {
        kind: Kind::Step,
        first: 0,
        last: 2047,
    },
    Range {
        kind: Kind::Constant,
        first: 0,
        last: 1,
    },
    Range {
        kind: Kind::InputWord,
        first: 0,
        last: 127,
    },
    Range {
        kind: Kind::OutputWord,
        first: 0,
        last: 127,
    },
    Range {
        kind: Kind::MarkerWord,
        first: 0,
        last: 4095,
    },
    Range {
        kind: Kind::ConstantWord,
        first: 0,
        last: 639,
    },
    Range {
        kind: Kind::MarkerDouble,
        first: 0,
        last: 511,
    },
    Range {
        kind: Kind::ConstantDouble,
        first: 0,
        last: 127,
    },
];

impl Edition {
    // The number that an image's trailer has for the edition.
    pub fn number(self) -> u16
        ensures { result ≡ edition_number self }
    {
        self as u16
    }

    pub fn ranges(self) -> &'static [Range]
        ensures value { result.now ≡ ranges_of self }
        ensures lawful { all_lawful result.now ≡ true }
    {
        match self {
            Edition::Series90 => &SERIES_90,
        }
    }
}

impl TryFrom<u16> for Edition {
    type Error = UnknownEdition;

    ghost try_from_gives = { IsEditionNumbered };

    fn try_from(number: u16) -> Result<Edition, UnknownEdition> {
        match number {
            90 => Ok(Edition::Series90),
            _ => Err(UnknownEdition(number)),
        }
    }
}

impl Range {
    pub fn holds(&self, kind: Kind, place: u16) -> bool
        ensures { result ≡ range_holds self.now kind place }
    {
        self.kind == kind && self.first <= place && place <= self.last
    }
}

pub fn in_ranges(ranges: &[Range], kind: Kind, place: u16) -> bool
    ensures { result ≡ any_holds ranges.now kind place }
{
    ranges.iter().any(|range| range.holds(kind, place))
}
