// From the two words of an item to the typed item. An argument is read in an edition; the two go no further than from one function
// to the next, so they stay two parameters.
#![tactic(auto)]

ghost use Rattle.std.specs.Prelude.{◌≡◌};
ghost use Rattle.decode.specs.Decoded.{alone, assign_item, operand_item, pin_item, kind_item, call_decoded, mark_decoded, word_decoded, nameless_decoded, item_decoded, Decodes};
ghost use Rattle.operand.specs.Codes.{decoded};

pub mod items;

use catalogue::Block;
use item::item::{Item, NO_NUMBER, Nameless};
use item::mnemonic::{Form, Mnemonic};
use operand::edition::Edition;
use operand::operand::decode;

// An item without an argument.
fn plain(item: Item, argument: u16) -> Option<Item>
    ensures { result ≡ alone item argument }
{
    (argument == 0).then_some(item)
}

fn assignment(edition: Edition, form: Form, argument: u16) -> Option<Item>
    ensures { result ≡ assign_item form (decoded edition argument) }
{
    decode(edition, argument).map(|operand| Item::Assign(form, operand))
}

fn call(argument: u16) -> Option<Item>
    ensures { result ≡ call_decoded argument }
{
    match argument {
        NO_NUMBER => Some(Item::Call(None)),
        _ => (argument < NO_NUMBER).then_some(Item::Call(Some(argument))),
    }
}

fn mark(argument: u16) -> Option<Item>
    ensures { result ≡ mark_decoded argument }
{
    (argument < 1000).then_some(Item::Mark(argument))
}

// An item that begins with a mnemonic.
fn written(edition: Edition, mnemonic: Mnemonic, argument: u16) -> Option<Item>
    ensures { result ≡ word_decoded edition mnemonic argument }
{
    match mnemonic {
        Mnemonic::Nop => plain(Item::Nop, argument),
        Mnemonic::Start(turn) => plain(Item::Start(turn), argument),
        Mnemonic::Open(turn) => plain(Item::Open(turn), argument),
        Mnemonic::Close => plain(Item::Close, argument),
        Mnemonic::Operator(operator) => plain(Item::Operator(operator), argument),
        Mnemonic::Compare(comparison) => plain(Item::Compare(comparison), argument),
        Mnemonic::Assign(form) => assignment(edition, form, argument),
        Mnemonic::EndIf => plain(Item::EndIf, argument),
        Mnemonic::Call => call(argument),
        Mnemonic::Direct => Some(Item::Direct(argument)),
        Mnemonic::Mark => mark(argument),
        Mnemonic::End => plain(Item::End, argument),
    }
}

// An item that is written without a mnemonic: an operand, a block's name or a pin.
fn nameless(edition: Edition, number: u16, argument: u16) -> Option<Item>
    ensures { result ≡ nameless_decoded edition number argument }
{
    match Nameless::try_from(number).ok()? {
        Nameless::Operand => decode(edition, argument).map(Item::Operand),
        Nameless::Kind => Block::numbered(edition, argument).map(Item::Kind),
        Nameless::Pin => decode(edition, argument).map(Item::Pin),
    }
}

fn item_of(edition: Edition, number: u16, argument: u16) -> Option<Item>
    ensures { result ≡ item_decoded edition number argument }
{
    match Mnemonic::try_from(number) {
        Ok(mnemonic) => written(edition, mnemonic, argument),
        Err(_) => nameless(edition, number, argument),
    }
}

// The item that a number and an argument stand for.
pub fn decode_item(edition: Edition, number: u16, argument: u16) -> Option<Item>
    ensures value { result ≡ item_decoded edition number argument }
    ensures exact { Decodes edition number argument result }
{
    item_of(edition, number, argument)
}
