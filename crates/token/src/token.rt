// The tokens of a text: what each of its parts stands for.
ghost use Rattle.std.specs.Prelude.{◌≡◌, [], ◌∷◌, ◌++◌, codes, MatchOption};
ghost use Rattle.std.specs.List.{position};
ghost use Rattle.std.specs.Str.{bytes_eq};
ghost use Rattle.character.specs.Classes.{is_comma};
ghost use Rattle.numeral.specs.Numerals.{natural};
ghost use Rattle.token.specs.Cuts.{PartsAreTheCut};
ghost use Rattle.token.specs.Tokens.{tok_of, pair_or, before, after};
ghost use Rattle.token.specs.Reads.{Reads, ReadsPart, Tokenized};
ghost use Rattle.token.specs.declared.token.TokenRefusal.TheVariants.{NoMemory};

use crate::cut::{Parts, Piece};
use catalogue::Block;
use character::is_comma;
use item::mnemonic::Mnemonic;
use numeral::{is_natural, is_number};
use operand::edition::Edition;
use operand::kind::Kind;
use spelling::{block_spelt, kind_spelt, mnemonic_spelt};
use std::alloc::{AllocFailed, Global};

// A token borrows its part of the text, beside what it was found to be.
#[derive(Clone, Copy)]
pub enum Token<'a> {
    Operator(&'a [u8], Mnemonic),
    Letters(&'a [u8], Kind),
    Block(&'a [u8], Block),
    Define(&'a [u8]),
    Number(&'a [u8]),
    // group and channel, what stands before the comma and after it
    Pair(&'a [u8], &'a [u8]),
}

#[derive(Clone, Copy)]
pub struct Placed<'a> {
    pub token: Token<'a>,
    pub place: usize,
}

#[derive(Debug, Drop)]
pub enum TokenRefusal {
    // no token is spelt as the part at this place
    Unknown { place: usize },
    NoMemory,
}

impl<T: Drop> From<AllocFailed<T>> for TokenRefusal {
    ghost from_gives = { λ _ r. r ≡ NoMemory };

    fn from(_refused: AllocFailed<T>) -> TokenRefusal {
        TokenRefusal::NoMemory
    }
}

// The place of the first comma.
fn comma_at(part: &[u8]) -> Option<usize>
    ensures { result ≡ position is_comma part.now }
{
    part.iter().position(|byte| is_comma(*byte))
}

// What stands before the first comma, and after it.
fn split_at_comma<'a>(part: &'a [u8]) -> Option<(&'a [u8], &'a [u8])>
    ensures { MatchOption result (after part.now ≡ []) (λ p. (p.0.now ≡ before part.now) × (p.1.now ≡ after part.now) × (p.0.now ++ (44 ∷ p.1.now) ≡ part.now)) }
{
    let comma = comma_at(part)?;
    Some((&part[..comma], &part[comma + 1..]))
}

// A pair of numbers with a comma between them.
fn pair_of<'a>(part: &'a [u8]) -> Option<Token<'a>>
    ensures { Reads part.now (pair_or (natural (before part.now)) (natural (after part.now))) result }
{
    let (group, channel) = split_at_comma(part)?;
    (is_natural(group) && is_natural(channel)).then_some(Token::Pair(group, channel))
}

// The token that a part of a text is, if it is known.
pub fn token_of<'a>(edition: Edition, part: &'a [u8]) -> Option<Token<'a>>
    ensures { Reads part.now (tok_of edition part.now) result }
{
    if let Some(mnemonic) = mnemonic_spelt(part) {
        return Some(Token::Operator(part, mnemonic));
    }
    if let Some(kind) = kind_spelt(part) {
        return Some(Token::Letters(part, kind));
    }
    if let Some(block) = block_spelt(edition, part) {
        return Some(Token::Block(part, block));
    }
    if part == b":=".as_slice() {
        return Some(Token::Define(part));
    }
    if is_number(part) {
        return Some(Token::Number(part));
    }
    pair_of(part)
}

fn read_part<'a>(edition: Edition, part: Piece<'a>) -> Result<Placed<'a>, TokenRefusal>
    ensures { ReadsPart edition part.entry result }
{
    let place = part.place;
    let token = token_of(edition, part.bytes).ok_or(TokenRefusal::Unknown { place })?;
    Ok(Placed { token, place })
}

// The tokens of a text in order, or the place of the first part that is no token.
#[tactic(auto, using(crate::proofs::Theorem::parts_are_the_cut))]
pub fn tokens<'a>(
    heap: Global,
    edition: Edition,
    text: &'a [u8],
) -> Result<Vec<Placed<'a>>, TokenRefusal>
    ensures read { Tokenized edition text.now result }
    ensures cut { PartsAreTheCut }
{
    let mut tokens = Vec::new(heap);
    let parts = Parts { text, from: 0 };
    for part in parts {
        tokens.push(read_part(edition, part)?)?;
    }
    Ok(tokens)
}
