// The block kinds: number, name, pins in order, and history cells.
// Translator, check and run all take them from here.
#![tactic(auto)]

ghost use Rattle.std.specs.Prelude.{◌≡◌};
ghost use Rattle.catalogue.specs.Blocks.{number_of, block_numbered, name_of, pins_of, cells_of};

use operand::edition::Edition;
use operand::kind::Size;

#[derive(Clone, Copy, Debug, PartialEq, Eq)]
pub enum Block {
    Esv = 1,
    Moa = 3,
    RisingEdge = 4,
    Ctud = 5,
    Muldi = 6,
    Zuwd = 7,
    Spbm = 8,
}

#[derive(Clone, Copy, Debug, PartialEq, Eq)]
pub enum Pin {
    Input(Size),
    Output(Size),
    // the number of a mark, written directly
    Mark,
}

static DELAY: [Pin; 3] = [
    Pin::Input(Size::Bit),
    Pin::Input(Size::Double),
    Pin::Output(Size::Bit),
];

static EDGE: [Pin; 2] = [Pin::Input(Size::Bit), Pin::Output(Size::Bit)];

static COUNTER: [Pin; 8] = [
    Pin::Input(Size::Bit),
    Pin::Input(Size::Bit),
    Pin::Input(Size::Bit),
    Pin::Input(Size::Bit),
    Pin::Input(Size::Word),
    Pin::Output(Size::Bit),
    Pin::Output(Size::Bit),
    Pin::Output(Size::Word),
];

static SCALE: [Pin; 4] = [
    Pin::Input(Size::Word),
    Pin::Input(Size::Word),
    Pin::Input(Size::Word),
    Pin::Output(Size::Word),
];

static COPY: [Pin; 2] = [Pin::Input(Size::Double), Pin::Output(Size::Double)];

static JUMP: [Pin; 2] = [Pin::Input(Size::Bit), Pin::Mark];

impl Block {
    pub fn number(self) -> u16
        ensures { result ≡ number_of self }
    {
        self as u16
    }

    // The block kind with that number, if the edition knows it.
    // Its number alone names no kind, so this is a look-up in an edition and no conversion.
    pub fn numbered(edition: Edition, number: u16) -> Option<Block>
        ensures { result ≡ block_numbered edition number }
    {
        match (edition, number) {
            (Edition::Series90, 1) => Some(Block::Esv),
            (Edition::Series90, 3) => Some(Block::Moa),
            (Edition::Series90, 4) => Some(Block::RisingEdge),
            (Edition::Series90, 5) => Some(Block::Ctud),
            (Edition::Series90, 6) => Some(Block::Muldi),
            (Edition::Series90, 7) => Some(Block::Zuwd),
            (Edition::Series90, 8) => Some(Block::Spbm),
            _ => None,
        }
    }

    pub fn name(self) -> &'static str
        ensures { result.now ≡ name_of self }
    {
        match self {
            Block::Esv => "ESV",
            Block::Moa => "MOA",
            Block::RisingEdge => "I+",
            Block::Ctud => "CTUD",
            Block::Muldi => "MULDI",
            Block::Zuwd => "ZUWD",
            Block::Spbm => "SPBM",
        }
    }

    // The pins in the order in which a call lists them.
    pub fn pins(self) -> &'static [Pin]
        ensures { result.now ≡ pins_of self }
    {
        match self {
            Block::Esv | Block::Moa => &DELAY,
            Block::RisingEdge => &EDGE,
            Block::Ctud => &COUNTER,
            Block::Muldi => &SCALE,
            Block::Zuwd => &COPY,
            Block::Spbm => &JUMP,
        }
    }

    // How many history cells a call of the kind has.
    pub fn cells(self) -> u16
        ensures { result ≡ cells_of self }
    {
        match self {
            Block::Esv | Block::Moa => 2,
            Block::RisingEdge => 1,
            Block::Ctud => 3,
            Block::Muldi | Block::Zuwd | Block::Spbm => 0,
        }
    }
}
