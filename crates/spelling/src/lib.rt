// Which mnemonic, operand letters or block a run of bytes spells.
#![tactic(auto)]

ghost use Rattle.std.specs.Prelude.{◌≡◌, length};
ghost use Rattle.spelling.specs.Rule.{spellings, Rule, Back, Only};
ghost use Rattle.spelling.specs.Spellings.{spelt_at, spelt_below, mnemonic_spelt, kind_spelt, block_spelt};

use catalogue::Block;
use item::mnemonic::Mnemonic;
use operand::edition::Edition;
use operand::kind::Kind;

pub mod spelled;

use crate::spelled::Spelled;

// The entry with that number, if there is one and the text spells it.
fn spelt_at<T: Spelled>(edition: Edition, text: &[u8], number: u16) -> Option<T>
    ensures { result ≡ spelt_at (T.Spelled.entry edition) T.Spelled.spelt text.now number }
{
    T::with_number(edition, number).filter(|entry| text == entry.spelling().as_bytes())
}

// Of the entries of a table that the edition knows, the last one that the text spells.
// Tried: `find_map` over the reversed numbers; nothing tells which numbers a reversed range gives, and the proof didn't close.
#[tactic(auto, using(crate::proofs::Walk::hit, crate::proofs::Walk::miss, crate::proofs::Walk::over))]
pub fn find_spelt<T: Spelled>(edition: Edition, text: &[u8]) -> Option<T>
    ensures { result ≡ spelt_below (T.Spelled.entry edition) T.Spelled.spelt text.now T.Spelled.COUNT }
{
    for number in (0..T::COUNT).rev() {
        if let Some(entry) = spelt_at::<T>(edition, text, number) {
            return Some(entry);
        }
    }
    None
}

// Mnemonics and letters are the same in every edition, so it does not matter which is named.
pub fn mnemonic_spelt(text: &[u8]) -> Option<Mnemonic>
    ensures { result ≡ mnemonic_spelt text.now }
{
    find_spelt::<Mnemonic>(Edition::Series90, text)
}

pub fn kind_spelt(text: &[u8]) -> Option<Kind>
    ensures { result ≡ kind_spelt text.now }
{
    find_spelt::<Kind>(Edition::Series90, text)
}

// The block of that name, if the edition knows it.
pub fn block_spelt(edition: Edition, text: &[u8]) -> Option<Block>
    ensures { result ≡ block_spelt edition text.now }
{
    find_spelt::<Block>(edition, text)
}

// There is nothing to run: what is ensured holds of the tables.
fn told_apart()
    ensures rule { Rule }
    ensures back { Back }
    ensures only { Only }
{}

// How many spellings there are; they are told apart, and each is read back.
pub fn spellings_hold() -> u8
    ensures count { result ≡ length spellings }
    ensures rule { Rule }
    ensures back { Back }
    ensures only { Only }
{
    told_apart();
    53
}
