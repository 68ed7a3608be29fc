// Operands, their codes, and which of them a list may write.
ghost use Rattle.std.specs.Prelude.{◌≡◌, ◌+◌, ◌*◌, ◌<◌, true};
ghost use Rattle.operand.specs.Codes.{code_of, operand_at, decoded, in_range, may_write, Decodes};
ghost use Rattle.operand.specs.Kinds.{number_of};
ghost use Rattle.operand.specs.Ranges.{system_ranges, writable_ranges};
ghost use Rattle.operand.specs.declared.edition.Edition.{Edition as AnyEdition};

use crate::edition::{Edition, Range, in_ranges};
use crate::kind::Kind;

#[derive(Clone, Copy, Debug, PartialEq, Eq)]
pub struct Operand {
    pub kind: Kind,
    pub group: u8,
    pub channel: u8,
}

// The kinds that a list may write.
static WRITABLE: [Range; 6] = [
    Range {
        kind: Kind::Output,
        first: 0,
        last: 4095,
    },
    Range {
        kind: Kind::Marker,
        first: 0,
        last: 4095,
    },
    Range {
        kind: Kind::Step,
        first: 0,
        last: 4095,
    },
    Range {
        kind: Kind::OutputWord,
        first: 0,
        last: 4095,
    },
    Range {
        kind: Kind::MarkerWord,
        first: 0,
        last: 4095,
    },
    Range {
        kind: Kind::MarkerDouble,
        first: 0,
        last: 4095,
    },
];

// Of these, the system's own: M 255,10 to 255,14 and MW 254,00 to 255,15.
static SYSTEM: [Range; 2] = [
    Range {
        kind: Kind::Marker,
        first: 4090,
        last: 4094,
    },
    Range {
        kind: Kind::MarkerWord,
        first: 4064,
        last: 4095,
    },
];

// The operand of a kind at a group and a channel, if the edition has it.
pub fn operand_at(edition: Edition, kind: Kind, group: u8, channel: u8) -> Option<Operand>
    ensures { result ≡ operand_at edition kind group channel }
{
    let operand = Operand {
        kind,
        group,
        channel,
    };
    (channel <= 15 && in_ranges(edition.ranges(), kind, operand.place())).then_some(operand)
}

fn at_code(edition: Edition, code: u16) -> Option<Operand>
    ensures { result ≡ decoded edition code }
{
    let kind = Kind::try_from(code / 4096).ok()?;
    let place = code % 4096;
    operand_at(edition, kind, (place / 16) as u8, (place % 16) as u8)
}

// The operand that a code stands for.
#[tactic(auto, using(crate::proofs::Undoing::decoded_right))]
pub fn decode(edition: Edition, code: u16) -> Option<Operand>
    ensures value { result ≡ decoded edition code }
    ensures exact { Decodes edition code result }
{
    at_code(edition, code)
}

fn code_at(kind: Kind, place: u16) -> u16
    requires { place < 8192 }
    ensures { result ≡ 4096 * number_of kind + place }
{
    4096 * kind.number() + place
}

impl Operand {
    pub fn place(self) -> u16
        ensures { result ≡ Rattle.operand.specs.Codes.place_of self }
    {
        16 * u16::from(self.group) + u16::from(self.channel)
    }

    #[tactic(auto, using(crate::proofs::Undoing::undone))]
    pub fn code(self) -> u16
        ensures value { result ≡ code_of self }
        ensures undone { (e : AnyEdition) → in_range e self ≡ true → decoded e result ≡ Some self }
    {
        code_at(self.kind, self.place())
    }

    // Whether a list may write the operand.
    pub fn is_writable(self) -> bool
        ensures { result ≡ may_write self }
    {
        in_ranges(&WRITABLE, self.kind, self.place())
            && !in_ranges(&SYSTEM, self.kind, self.place())
    }
}
