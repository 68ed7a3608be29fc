// How items and constants are written: with a pen, and not by `Display`, whose contract lets it fail.
#![tactic(auto)]

ghost use Rattle.item.specs.Mnemonics.{name_of};
ghost use Rattle.lay.specs.Lays.{Puts};
ghost use Rattle.script.specs.Texts.{beside, call_text, constant_text, item_text, operand_text, pair_text};
ghost use Rattle.std.specs.Prelude.{ℕ, List};

use constants::decode::signed_word;
use image::constant::Constant;
use item::item::Item;
use item::mnemonic::Mnemonic;
use itoa::Integer;
use lay::pen::Pen;
use operand::operand::Operand;

// What has a text.
pub trait Script: Copy {
    ghost text: { Self → List ℕ };

    fn put_on(self, pen: &mut Pen)
        ensures { Puts pen.old (text self) pen.new };
}

fn put_pair(pen: &mut Pen, operand: Operand)
    ensures { Puts pen.old (pair_text operand) pen.new }
{
    pen.put_two(operand.group);
    pen.put_byte(b',');
    pen.put_two(operand.channel);
}

fn put_operand(pen: &mut Pen, operand: Operand)
    ensures { Puts pen.old (operand_text operand) pen.new }
{
    pen.put_text(operand.kind.letters());
    pen.put_byte(b' ');
    put_pair(pen, operand);
}

fn put_mnemonic(pen: &mut Pen, mnemonic: Mnemonic)
    ensures { Puts pen.old (name_of mnemonic) pen.new }
{
    pen.put_text(mnemonic.name());
}

fn put_assigned(pen: &mut Pen, mnemonic: Mnemonic, operand: Operand)
    ensures { Puts pen.old (beside (name_of mnemonic) (operand_text operand)) pen.new }
{
    put_mnemonic(pen, mnemonic);
    pen.put_byte(b' ');
    put_operand(pen, operand);
}

fn put_numbered<N: Integer>(pen: &mut Pen, mnemonic: Mnemonic, number: N)
    ensures { Puts pen.old (beside (name_of mnemonic) (N.Integer.text number)) pen.new }
{
    put_mnemonic(pen, mnemonic);
    pen.put_byte(b' ');
    pen.put_number(number);
}

fn put_call(pen: &mut Pen, number: Option<u16>)
    ensures { Puts pen.old (call_text number) pen.new }
{
    match number {
        Some(number) => put_numbered(pen, Mnemonic::Call, number),
        None => put_mnemonic(pen, Mnemonic::Call),
    }
}

impl Script for Item {
    ghost text = { item_text };

    fn put_on(self, pen: &mut Pen) {
        match self {
            Item::Nop => put_mnemonic(pen, Mnemonic::Nop),
            Item::Start(turn) => put_mnemonic(pen, Mnemonic::Start(turn)),
            Item::Open(turn) => put_mnemonic(pen, Mnemonic::Open(turn)),
            Item::Close => put_mnemonic(pen, Mnemonic::Close),
            Item::Operand(operand) | Item::Pin(operand) => put_operand(pen, operand),
            Item::Operator(operator) => put_mnemonic(pen, Mnemonic::Operator(operator)),
            Item::Compare(comparison) => put_mnemonic(pen, Mnemonic::Compare(comparison)),
            Item::Assign(form, operand) => put_assigned(pen, Mnemonic::Assign(form), operand),
            Item::EndIf => put_mnemonic(pen, Mnemonic::EndIf),
            Item::Call(number) => put_call(pen, number),
            Item::Kind(block) => pen.put_text(block.name()),
            Item::Direct(word) => put_numbered(pen, Mnemonic::Direct, signed_word(word)),
            Item::Mark(mark) => put_numbered(pen, Mnemonic::Mark, mark),
            Item::End => put_mnemonic(pen, Mnemonic::End),
        }
    }
}

impl Script for Constant {
    ghost text = { constant_text };

    fn put_on(self, pen: &mut Pen) {
        put_operand(pen, self.operand);
        pen.put_text(" := ");
        pen.put_number(self.value);
    }
}
