// Operands and numbers that a token stands for. Each takes its token by `let .. else`, and refuses with the place of one that it is not.
ghost use Rattle.std.specs.Prelude.{◌≡◌};
ghost use Rattle.numeral.specs.Numerals.{natural};
ghost use Rattle.token.specs.Reads.{meaning};
ghost use Rattle.token.specs.Tokens.{pair_or};
ghost use Rattle.follow.specs.Steps.{operand_in, value_in, kind_in};
ghost use Rattle.follow.specs.Fits.{fitting};

use numeral::{read_natural, read_value};
use operand::edition::Edition;
use operand::kind::Kind;
use operand::operand::{Operand, operand_at};
use token::token::{Placed, Token};

// A token that does not fit the one before, by its byte place.
#[derive(Clone, Copy, Debug, PartialEq, Eq)]
pub struct Misfit {
    pub place: usize,
}

fn operand_of(edition: Edition, kind: Kind, group: &[u8], channel: &[u8]) -> Option<Operand>
    ensures { result ≡ operand_in edition kind (pair_or (natural group.now) (natural channel.now)) }
{
    let group = read_natural(group, 255)?;
    let channel = read_natural(channel, 15)?;
    operand_at(edition, kind, group as u8, channel as u8)
}

// The operand that letters of `kind` name with the pair token after them.
pub fn read_operand(edition: Edition, kind: Kind, placed: Placed) -> Result<Operand, Misfit>
    ensures { result ≡ fitting placed.entry.place (operand_in edition kind (meaning placed.entry.token)) }
{
    let place = placed.place;
    let Token::Pair(group, channel) = placed.token else {
        return Err(Misfit { place });
    };
    operand_of(edition, kind, group, channel).ok_or(Misfit { place })
}

// The number from `low` to `high` that a token is: two numbers, as `read_value` has them.
pub fn read_number(placed: Placed, low: i32, high: i32) -> Result<i32, Misfit>
    ensures { result ≡ fitting placed.entry.place (value_in low high (meaning placed.entry.token)) }
{
    let place = placed.place;
    let Token::Number(digits) = placed.token else {
        return Err(Misfit { place });
    };
    read_value(digits, low, high).ok_or(Misfit { place })
}

// The kind that letters stand for.
pub fn read_letters(placed: Placed) -> Result<Kind, Misfit>
    ensures { result ≡ fitting placed.entry.place (kind_in (meaning placed.entry.token)) }
{
    let place = placed.place;
    let Token::Letters(_, kind) = placed.token else {
        return Err(Misfit { place });
    };
    Ok(kind)
}
