// The words that begin an item in a text, and the item's number for each.
ghost use Rattle.std.specs.Prelude.{◌≡◌};
ghost use Rattle.item.specs.Mnemonics.{number_of, IsMnemonicNumbered, name_of};

// What turns the term on its right: nothing, N or minus.
#[derive(Clone, Copy, Debug, PartialEq, Eq)]
pub enum Turn {
    Plain,
    Not,
    Minus,
}

#[derive(Clone, Copy, Debug, PartialEq, Eq)]
pub enum Operator {
    And,
    AndNot,
    Or,
    OrNot,
    Add,
    Subtract,
    Multiply,
    MultiplyMinus,
    Divide,
    DivideMinus,
}

#[derive(Clone, Copy, Debug, PartialEq, Eq)]
pub enum Comparison {
    Greater,
    Less,
    AtLeast,
    Equal,
    Unequal,
    AtMost,
}

// How an assignment stores the sentence's value.
#[derive(Clone, Copy, Debug, PartialEq, Eq)]
pub enum Form {
    Plain,
    Not,
    Minus,
    Set,
    Reset,
}

#[derive(Clone, Copy, Debug, PartialEq, Eq)]
pub enum Mnemonic {
    Nop,
    Start(Turn),
    Open(Turn),
    Close,
    Operator(Operator),
    Compare(Comparison),
    Assign(Form),
    EndIf,
    Call,
    Direct,
    Mark,
    End,
}

// A number that no item with a mnemonic has.
#[derive(Clone, Copy, Debug, PartialEq, Eq)]
pub struct UnknownMnemonic(pub u16);

impl Mnemonic {
    // A case that holds a turn, an operator or a form has no number of its own to be cast, so the numbers stand in a match.
    pub fn number(self) -> u16
        ensures { result ≡ number_of self }
    {
        match self {
            Mnemonic::Nop => 0,
            Mnemonic::Start(Turn::Plain) => 1,
            Mnemonic::Start(Turn::Not) => 2,
            Mnemonic::Start(Turn::Minus) => 3,
            Mnemonic::Open(Turn::Plain) => 4,
            Mnemonic::Open(Turn::Not) => 5,
            Mnemonic::Open(Turn::Minus) => 6,
            Mnemonic::Close => 7,
            Mnemonic::Operator(Operator::And) => 10,
            Mnemonic::Operator(Operator::AndNot) => 11,
            Mnemonic::Operator(Operator::Or) => 12,
            Mnemonic::Operator(Operator::OrNot) => 13,
            Mnemonic::Operator(Operator::Add) => 14,
            Mnemonic::Operator(Operator::Subtract) => 15,
            Mnemonic::Operator(Operator::Multiply) => 16,
            Mnemonic::Operator(Operator::MultiplyMinus) => 17,
            Mnemonic::Operator(Operator::Divide) => 18,
            Mnemonic::Operator(Operator::DivideMinus) => 19,
            Mnemonic::Compare(Comparison::Greater) => 20,
            Mnemonic::Compare(Comparison::Less) => 21,
            Mnemonic::Compare(Comparison::AtLeast) => 22,
            Mnemonic::Compare(Comparison::Equal) => 23,
            Mnemonic::Compare(Comparison::Unequal) => 24,
            Mnemonic::Compare(Comparison::AtMost) => 25,
            Mnemonic::Assign(Form::Plain) => 30,
            Mnemonic::Assign(Form::Not) => 31,
            Mnemonic::Assign(Form::Minus) => 32,
            Mnemonic::Assign(Form::Set) => 33,
            Mnemonic::Assign(Form::Reset) => 34,
            Mnemonic::EndIf => 35,
            Mnemonic::Call => 40,
            Mnemonic::Direct => 43,
            Mnemonic::Mark => 50,
            Mnemonic::End => 51,
        }
    }

    pub fn name(self) -> &'static str
        ensures { result.now ≡ name_of self }
    {
        match self {
            Mnemonic::Nop => "NOP",
            Mnemonic::Start(Turn::Plain) => "!",
            Mnemonic::Start(Turn::Not) => "!N",
            Mnemonic::Start(Turn::Minus) => "!-",
            Mnemonic::Open(Turn::Plain) => "(",
            Mnemonic::Open(Turn::Not) => "(N",
            Mnemonic::Open(Turn::Minus) => "(-",
            Mnemonic::Close => ")",
            Mnemonic::Operator(Operator::And) => "&",
            Mnemonic::Operator(Operator::AndNot) => "&N",
            Mnemonic::Operator(Operator::Or) => "/",
            Mnemonic::Operator(Operator::OrNot) => "/N",
            Mnemonic::Operator(Operator::Add) => "+",
            Mnemonic::Operator(Operator::Subtract) => "-",
            Mnemonic::Operator(Operator::Multiply) => "*",
            Mnemonic::Operator(Operator::MultiplyMinus) => "*-",
            Mnemonic::Operator(Operator::Divide) => ":",
            Mnemonic::Operator(Operator::DivideMinus) => ":-",
            Mnemonic::Compare(Comparison::Greater) => ">",
            Mnemonic::Compare(Comparison::Less) => "<",
            Mnemonic::Compare(Comparison::AtLeast) => ">=",
            Mnemonic::Compare(Comparison::Equal) => "=?",
            Mnemonic::Compare(Comparison::Unequal) => "<>",
            Mnemonic::Compare(Comparison::AtMost) => "<=",
            Mnemonic::Assign(Form::Plain) => "=",
            Mnemonic::Assign(Form::Not) => "=N",
            Mnemonic::Assign(Form::Minus) => "=-",
            Mnemonic::Assign(Form::Set) => "=S",
            Mnemonic::Assign(Form::Reset) => "=R",
            Mnemonic::EndIf => "=PE",
            Mnemonic::Call => "!BA",
            Mnemonic::Direct => "#",
            Mnemonic::Mark => "MA",
            Mnemonic::End => "!PE",
        }
    }
}

impl TryFrom<u16> for Mnemonic {
    type Error = UnknownMnemonic;

    ghost try_from_gives = { IsMnemonicNumbered };

    fn try_from(number: u16) -> Result<Mnemonic, UnknownMnemonic> {
        match number {
            0 => Ok(Mnemonic::Nop),
            1 => Ok(Mnemonic::Start(Turn::Plain)),
            2 => Ok(Mnemonic::Start(Turn::Not)),
            3 => Ok(Mnemonic::Start(Turn::Minus)),
            4 => Ok(Mnemonic::Open(Turn::Plain)),
            5 => Ok(Mnemonic::Open(Turn::Not)),
            6 => Ok(Mnemonic::Open(Turn::Minus)),
            7 => Ok(Mnemonic::Close),
            10 => Ok(Mnemonic::Operator(Operator::And)),
            11 => Ok(Mnemonic::Operator(Operator::AndNot)),
            12 => Ok(Mnemonic::Operator(Operator::Or)),
            13 => Ok(Mnemonic::Operator(Operator::OrNot)),
            14 => Ok(Mnemonic::Operator(Operator::Add)),
            15 => Ok(Mnemonic::Operator(Operator::Subtract)),
            16 => Ok(Mnemonic::Operator(Operator::Multiply)),
            17 => Ok(Mnemonic::Operator(Operator::MultiplyMinus)),
            18 => Ok(Mnemonic::Operator(Operator::Divide)),
            19 => Ok(Mnemonic::Operator(Operator::DivideMinus)),
            20 => Ok(Mnemonic::Compare(Comparison::Greater)),
            21 => Ok(Mnemonic::Compare(Comparison::Less)),
            22 => Ok(Mnemonic::Compare(Comparison::AtLeast)),
            23 => Ok(Mnemonic::Compare(Comparison::Equal)),
            24 => Ok(Mnemonic::Compare(Comparison::Unequal)),
            25 => Ok(Mnemonic::Compare(Comparison::AtMost)),
            30 => Ok(Mnemonic::Assign(Form::Plain)),
            31 => Ok(Mnemonic::Assign(Form::Not)),
            32 => Ok(Mnemonic::Assign(Form::Minus)),
            33 => Ok(Mnemonic::Assign(Form::Set)),
            34 => Ok(Mnemonic::Assign(Form::Reset)),
            35 => Ok(Mnemonic::EndIf),
            40 => Ok(Mnemonic::Call),
            43 => Ok(Mnemonic::Direct),
            50 => Ok(Mnemonic::Mark),
            51 => Ok(Mnemonic::End),
            _ => Err(UnknownMnemonic(number)),
        }
    }
}
