// From the three words of a constant to the constant. Low and high word stay two parameters, as they are two words of the image.
ghost use Rattle.std.specs.Iterator.{YieldsFirst, at_most};
ghost use Rattle.std.specs.Prelude.{◌≡◌, ◌/◌, length};
ghost use Rattle.constants.specs.Decoded.{word_value, double_value, word_constant, double_constant, constant_decoded, constants_of};
ghost use Rattle.constants.specs.Lawful.{Decodes};

use image::constant::Constant;
use operand::edition::Edition;
use operand::kind::Kind;
use operand::operand::{Operand, decode};

// The value of 16 bits in two's complement.
pub fn signed_word(bits: u16) -> i32
    ensures { result ≡ word_value bits }
{
    i32::from(bits.cast_signed())
}

// The value of 32 bits in two's complement.
fn signed_double(bits: u32) -> i32
    ensures { result ≡ double_value bits }
{
    bits.cast_signed()
}

// A word: its high word is 0, and 8000h is no lawful value.
fn word_at(operand: Operand, low: u16, high: u16) -> Option<Constant>
    ensures { result ≡ word_constant operand low high }
{
    (high == 0 && low != 0x8000).then_some(Constant {
        operand,
        value: signed_word(low),
    })
}

// A double: 8000 0000h is no lawful value.
fn double_at(operand: Operand, low: u16, high: u16) -> Option<Constant>
    ensures { result ≡ double_constant operand low high }
{
    (low != 0 || high != 0x8000).then_some(Constant {
        operand,
        value: signed_double(0x1_0000 * u32::from(high) + u32::from(low)),
    })
}

fn constant_of(edition: Edition, code: u16, low: u16, high: u16) -> Option<Constant>
    ensures { result ≡ constant_decoded edition code low high }
{
    let operand = decode(edition, code)?;
    match operand.kind {
        Kind::ConstantWord => word_at(operand, low, high),
        Kind::ConstantDouble => double_at(operand, low, high),
        _ => None,
    }
}

// The constant that a code, a low and a high word stand for.
pub fn decode_constant(edition: Edition, code: u16, low: u16, high: u16) -> Option<Constant>
    ensures value { result ≡ constant_decoded edition code low high }
    ensures exact { Decodes edition code low high result }
{
    constant_of(edition, code, low, high)
}

// An edition and the words of a list's constants, three words each: operand code, low word, high word.
// As an iterator it gives each constant, or none in its place where the words are those of none; words short of three at the end are left out.
// A type of its own beside Items: what the words stand for, how many they are and which definitions tell it all differ.
#[derive(Clone, Copy)]
pub struct Constants<'a> {
    pub edition: Edition,
    pub words: &'a [u16],
}

impl<'a> Iterator for Constants<'a> {
    type Item = Option<Constant>;

    ghost next_gives = { YieldsFirst (λ s. constants_of s.edition s.words.now) };

    ghost remaining = { λ s. at_most (length s.words.now / 3) };

    #[tactic(auto, using(crate::proofs::Passing::constants_next, crate::proofs::Passing::short))]
    fn next(&mut self) -> Option<Option<Constant>> {
        let (triple, rest) = self.words.split_first_chunk::<3>()?;
        self.words = rest;
        Some(decode_constant(self.edition, triple[0], triple[1], triple[2]))
    }
}
