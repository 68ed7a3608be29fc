// One token more: whether it fits the one before, and what it adds to the list.
ghost use Rattle.std.specs.Prelude.{◌≡◌, pos, negsuc, ◌≤ℤ◌};
ghost use Rattle.follow.specs.Fits.{fitting};
ghost use Rattle.follow.specs.Steps.{put_then, asking, item_done, pin_done, begun, named, entry, after_call, target, kind_in, used, term, constant, constant_done, defined, valued, next_step, value_in, word_bits, direct, mark, operand_in, address};
ghost use Rattle.constants.specs.Rules.{least, most};
ghost use Rattle.operand.specs.Kinds.{size_of};
ghost use Rattle.numeral.specs.Numerals.{written_as};
ghost use Rattle.token.specs.Reads.{meaning};
ghost use Rattle.token.specs.Tokens.{number_or, unknown};

use crate::number::{Misfit, read_letters, read_number, read_operand};
use crate::state::{Asks, Put, Role, State, Step};
use catalogue::Block;
use constants::rules::{is_constant, may_follow};
use image::constant::Constant;
use item::item::Item;
use item::mnemonic::{Form, Mnemonic};
use numeral::read_natural;
use operand::edition::Edition;
use operand::kind::{Kind, Size};
use operand::operand::Operand;
use token::token::{Placed, Token};

// What a step makes of the state.
impl State {
    fn put(self, put: Put, asks: Asks) -> Step
        ensures { result ≡ put_then self put asks }
    {
        Step {
            put,
            state: State { asks, ..self },
        }
    }

    // The token only asks something of the next one.
    fn ask(self, asks: Asks) -> Step
        ensures { result ≡ asking self asks }
    {
        self.put(Put::Nothing, asks)
    }

    // An item is complete.
    fn complete(self, item: Item) -> Step
        ensures { result ≡ item_done self item }
    {
        self.put(Put::Item(item), Asks::Entry)
    }

    // An item is complete, and with it a pin, if one was to come.
    fn complete_pin(self, item: Item) -> Step
        ensures { result ≡ pin_done self item }
    {
        let pins = self.pins.saturating_sub(1);
        State { pins, ..self }.complete(item)
    }

    fn begin(self, mnemonic: Mnemonic) -> Step
        ensures { result ≡ begun self mnemonic }
    {
        match mnemonic {
            Mnemonic::Nop => self.complete(Item::Nop),
            Mnemonic::Start(turn) => self.complete(Item::Start(turn)),
            Mnemonic::Open(turn) => self.complete(Item::Open(turn)),
            Mnemonic::Close => self.complete(Item::Close),
            Mnemonic::Operator(operator) => self.complete(Item::Operator(operator)),
            Mnemonic::Compare(comparison) => self.complete(Item::Compare(comparison)),
            Mnemonic::Assign(form) => self.ask(Asks::Target(form)),
            Mnemonic::EndIf => self.complete(Item::EndIf),
            Mnemonic::Call => self.put(Put::Item(Item::Call(None)), Asks::CallNumber),
            Mnemonic::Direct => self.ask(Asks::Direct),
            Mnemonic::Mark => self.ask(Asks::Mark),
            Mnemonic::End => self.put(Put::Item(Item::End), Asks::Constant),
        }
    }

    fn name_block(self, block: Block) -> Step
        ensures { result ≡ named self block }
    {
        let pins = block.pins().len();
        State { pins, ..self }.complete(Item::Kind(block))
    }

    // An operand is a pin while the block named last has pins to come.
    fn add_term(self, operand: Operand) -> Step
        ensures { result ≡ term self self.pins operand }
    {
        if self.pins > 0 {
            self.complete_pin(Item::Pin(operand))
        } else {
            self.complete(Item::Operand(operand))
        }
    }

    // A constant is complete.
    fn define(self, operand: Operand, value: i32) -> Step
        ensures { result ≡ constant_done self operand value }
    {
        let last = Some(operand);
        State { last, ..self }.put(Put::Constant(Constant { operand, value }), Asks::Constant)
    }
}

// What each token is read as, by what the one before asks.
impl State {
    // Any item may begin.
    fn read_entry(self, placed: Placed) -> Result<Step, Misfit>
        ensures { result ≡ fitting placed.entry.place (entry self (meaning placed.entry.token)) }
    {
        let place = placed.place;
        match placed.token {
            Token::Operator(_, mnemonic) => Ok(self.begin(mnemonic)),
            Token::Letters(_, kind) => Ok(self.ask(Asks::Address(Role::Term, kind))),
            Token::Block(_, block) => Ok(self.name_block(block)),
            _ => Err(Misfit { place }),
        }
    }

    // The number of a call, without a minus.
    fn number_call(self, digits: &[u8]) -> Option<Step>
        ensures { result ≡ after_call self (number_or (written_as digits.now) unknown) }
    {
        let number = read_natural(digits, 999)?;
        Some(self.put(Put::CallNumber(number as u16), Asks::Entry))
    }

    // After `!BA` a number may stand; else any item may begin.
    fn read_call_number(self, placed: Placed) -> Result<Step, Misfit>
        ensures { result ≡ fitting placed.entry.place (after_call self (meaning placed.entry.token)) }
    {
        let place = placed.place;
        let Token::Number(digits) = placed.token else {
            return self.read_entry(placed);
        };
        self.number_call(digits).ok_or(Misfit { place })
    }

    fn read_target(self, form: Form, placed: Placed) -> Result<Step, Misfit>
        ensures { result ≡ fitting placed.entry.place (target self form (kind_in (meaning placed.entry.token))) }
    {
        let kind = read_letters(placed)?;
        Ok(self.ask(Asks::Address(Role::Target(form), kind)))
    }

    // What an operand is read for.
    fn use_operand(self, role: Role, operand: Operand, place: usize) -> Result<Step, Misfit>
        ensures { result ≡ fitting place (used self role operand) }
    {
        match role {
            Role::Term => Ok(self.add_term(operand)),
            Role::Target(form) => Ok(self.complete(Item::Assign(form, operand))),
            Role::Constant => {
                if may_follow(self.last, operand) {
                    Ok(self.ask(Asks::Define(operand)))
                } else {
                    Err(Misfit { place })
                }
            }
        }
    }

    fn read_address(
        self,
        edition: Edition,
        role: Role,
        kind: Kind,
        placed: Placed,
    ) -> Result<Step, Misfit>
        ensures { result ≡ fitting placed.entry.place (address self role (operand_in edition kind (meaning placed.entry.token))) }
    {
        let operand = read_operand(edition, kind, placed)?;
        self.use_operand(role, operand, placed.place)
    }

    // The value of a direct pin, any word.
    fn read_direct(self, placed: Placed) -> Result<Step, Misfit>
        ensures { result ≡ fitting placed.entry.place (direct self (value_in (negsuc 32767) (pos 32767) (meaning placed.entry.token))) }
    {
        let value = read_number(placed, -32768, 32767)?;
        Ok(self.complete_pin(Item::Direct(bits_of(value))))
    }

    fn read_mark(self, placed: Placed) -> Result<Step, Misfit>
        ensures { result ≡ fitting placed.entry.place (mark self (value_in (pos 0) (pos 999) (meaning placed.entry.token))) }
    {
        let value = read_number(placed, 0, 999)?;
        Ok(self.complete(Item::Mark(bits_of(value))))
    }

    // Behind the list only constants may begin.
    fn read_constant(self, placed: Placed) -> Result<Step, Misfit>
        ensures { result ≡ fitting placed.entry.place (constant self (kind_in (meaning placed.entry.token))) }
    {
        let place = placed.place;
        let kind = read_letters(placed)?;
        if is_constant(kind) {
            Ok(self.ask(Asks::Address(Role::Constant, kind)))
        } else {
            Err(Misfit { place })
        }
    }

    fn read_define(self, operand: Operand, placed: Placed) -> Result<Step, Misfit>
        ensures { result ≡ fitting placed.entry.place (defined self operand (meaning placed.entry.token)) }
    {
        let place = placed.place;
        match placed.token {
            Token::Define(_) => Ok(self.ask(Asks::Value(operand))),
            _ => Err(Misfit { place }),
        }
    }

    fn read_constant_value(self, operand: Operand, placed: Placed) -> Result<Step, Misfit>
        ensures { result ≡ fitting placed.entry.place (valued self operand (value_in (least (size_of operand.kind)) (most (size_of operand.kind)) (meaning placed.entry.token))) }
    {
        let value = read_lawful(operand.kind.size(), placed)?;
        Ok(self.define(operand, value))
    }
}

// The 16 bits of a value.
fn bits_of(value: i32) -> u16
    requires { (negsuc 32767 ≤ℤ value) × (value ≤ℤ pos 32767) }
    ensures { result ≡ word_bits value }
{
    (value as i16).cast_unsigned()
}

// A lawful value of a size: never the smallest that its bits could hold.
fn read_lawful(size: Size, placed: Placed) -> Result<i32, Misfit>
    ensures { result ≡ fitting placed.entry.place (value_in (least size) (most size) (meaning placed.entry.token)) }
{
    match size {
        Size::Bit => read_number(placed, 0, 1),
        Size::Word => read_number(placed, -32767, 32767),
        Size::Double => read_number(placed, -2_147_483_647, 2_147_483_647),
    }
}

// The step that a token makes, or its place if it does not fit the one before.
// What is asked is a case of an enum and no closure, since the contracts compare states and the reader keeps one.
pub fn next(edition: Edition, state: State, placed: Placed) -> Result<Step, Misfit>
    ensures { result ≡ fitting placed.entry.place (next_step edition state (meaning placed.entry.token)) }
{
    match state.asks {
        Asks::Entry => state.read_entry(placed),
        Asks::CallNumber => state.read_call_number(placed),
        Asks::Target(form) => state.read_target(form, placed),
        Asks::Address(role, kind) => state.read_address(edition, role, kind, placed),
        Asks::Direct => state.read_direct(placed),
        Asks::Mark => state.read_mark(placed),
        Asks::Constant => state.read_constant(placed),
        Asks::Define(operand) => state.read_define(operand, placed),
        Asks::Value(operand) => state.read_constant_value(operand, placed),
    }
}
