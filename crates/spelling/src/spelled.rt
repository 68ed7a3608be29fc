// What a table of numbered words has to answer, so that one walk serves them all.
ghost use Rattle.std.specs.Prelude.{◌≡◌, ℕ, List, Option as Maybe};
ghost use Rattle.operand.specs.declared.edition.Edition.{Edition as AnyEdition};
ghost use Rattle.operand.specs.Kinds.{kind_numbered, letters_of};
ghost use Rattle.catalogue.specs.Blocks as Blocks;
ghost use Rattle.item.specs.Mnemonics as Mnemonics;

use catalogue::Block;
use item::mnemonic::Mnemonic;
use operand::edition::Edition;
use operand::kind::Kind;

pub trait Spelled: Sized + Copy {
    // The entry with a number, if the edition has one.
    ghost entry: { AnyEdition → ℕ → Maybe Self };

    ghost spelt: { Self → List ℕ };

    ghost COUNT: { ℕ };

    // One past the largest number in the table.
    const COUNT: u16;

    fn with_number(edition: Edition, number: u16) -> Option<Self>
        ensures { result ≡ entry edition number };

    fn spelling(self) -> &'static str
        ensures { result.now ≡ spelt self };
}

impl Spelled for Mnemonic {
    ghost entry = { λ _. Mnemonics.mnemonic_numbered };

    ghost spelt = { Mnemonics.name_of };

    ghost COUNT = { 52 };

    const COUNT: u16 = 52;

    fn with_number(_edition: Edition, number: u16) -> Option<Self> {
        Mnemonic::try_from(number).ok()
    }

    fn spelling(self) -> &'static str {
        self.name()
    }
}

impl Spelled for Kind {
    ghost entry = { λ _. kind_numbered };

    ghost spelt = { letters_of };

    ghost COUNT = { 11 };

    const COUNT: u16 = 11;

    fn with_number(_edition: Edition, number: u16) -> Option<Self> {
        Kind::try_from(number).ok()
    }

    fn spelling(self) -> &'static str {
        self.letters()
    }
}

impl Spelled for Block {
    ghost entry = { Blocks.block_numbered };

    ghost spelt = { Blocks.name_of };

    ghost COUNT = { 9 };

    const COUNT: u16 = 9;

    fn with_number(edition: Edition, number: u16) -> Option<Self> {
        Block::numbered(edition, number)
    }

    fn spelling(self) -> &'static str {
        self.name()
    }
}
