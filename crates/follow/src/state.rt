// What was read, and what the token before asks of the next one.
use image::constant::Constant;
use item::item::Item;
use item::mnemonic::Form;
use operand::kind::Kind;
use operand::operand::Operand;

// What an operand is read for.
#[derive(Clone, Copy, Debug, PartialEq, Eq)]
pub enum Role {
    // a term of a sentence, or a pin while the block named last has pins to come
    Term,
    // what an assignment stores to
    Target(Form),
    // a constant behind the end of the list
    Constant,
}

// What the token before asks of the next one.
#[derive(Clone, Copy, Debug, PartialEq, Eq)]
pub enum Asks {
    // nothing: any item may begin
    Entry,
    // the number of a call, which may be missing
    CallNumber,
    // letters, after an assignment
    Target(Form),
    // group and channel, after letters
    Address(Role, Kind),
    // a number, after `#` and `MA`
    Direct,
    Mark,
    // a constant or the text's end, after `!PE`
    Constant,
    // `:=`, and then the value
    Define(Operand),
    Value(Operand),
}

#[derive(Clone, Copy, Debug, PartialEq, Eq)]
pub struct State {
    pub asks: Asks,
    // the pins that the block named last still takes
    pub pins: usize,
    // the constant before
    pub last: Option<Operand>,
}

// What a token adds to the list.
#[derive(Clone, Copy, Debug, PartialEq, Eq)]
pub enum Put {
    Nothing,
    Item(Item),
    // the number of the call that was put last
    CallNumber(u16),
    Constant(Constant),
}

#[derive(Clone, Copy, Debug, PartialEq, Eq)]
pub struct Step {
    pub put: Put,
    pub state: State,
}
