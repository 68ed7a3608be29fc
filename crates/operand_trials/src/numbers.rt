// Numbers of kinds, mnemonics and block kinds, with what each stands for.
use crate::codes::check_item;
use catalogue::Block;
use item::item::{Item, Nameless};
use item::mnemonic::Mnemonic;
use operand::edition::Edition;
use operand::kind::Kind;
use std::process::Abort;
use std::test::Fail;

static KINDS: [&str; 11] = ["E", "A", "M", "S", "K", "EW", "AW", "MW", "KW", "MD", "KD"];

static MNEMONICS: &str = "0 NOP
1 !
2 !N
3 !-
4 (
5 (N
6 (-
7 )
10 &
11 &N
12 /
13 /N
14 +
15 -
16 *
17 *-
18 :
19 :-
20 >
21 <
22 >=
23 =?
24 <>
25 <=
30 =
31 =N
32 =-
33 =S
34 =R
35 =PE
40 !BA
43 #
50 MA
51 !PE";

struct Known {
    number: u16,
    name: &'static str,
    pins: usize,
    cells: u16,
}

static BLOCKS: [Known; 7] = [
    Known {
        number: 1,
        name: "ESV",
        pins: 3,
        cells: 2,
    },
    Known {
        number: 3,
        name: "MOA",
        pins: 3,
        cells: 2,
    },
    Known {
        number: 4,
        name: "I+",
        pins: 2,
        cells: 1,
    },
    Known {
        number: 5,
        name: "CTUD",
        pins: 8,
        cells: 3,
    },
    Known {
        number: 6,
        name: "MULDI",
        pins: 4,
        cells: 0,
    },
    Known {
        number: 7,
        name: "ZUWD",
        pins: 2,
        cells: 0,
    },
    Known {
        number: 8,
        name: "SPBM",
        pins: 2,
        cells: 0,
    },
];

#[test]
fn kinds_have_letters(rt: HostRuntime) -> Result<(), Fail> {
    for (number, letters) in KINDS.iter().enumerate() {
        let kind = Kind::try_from(number as u16).map_err(|_| "no kind")?;
        assert_eq!(rt; kind.letters(), *letters);
    }
    Ok(())
}

#[test]
fn mnemonics_have_names(rt: HostRuntime) -> Result<(), Fail> {
    let mut count = 0usize;
    for line in MNEMONICS.lines() {
        let (number, name) = line.split_once(' ').ok_or("no name")?;
        let number = number.parse::<u16>()?;
        let mnemonic = Mnemonic::try_from(number).map_err(|_| "no mnemonic")?;
        assert_eq!(rt; mnemonic.number(), number);
        assert_eq!(rt; mnemonic.name(), name);
        count = count.saturating_add(1);
    }
    assert_eq!(rt; count, 34);
    Ok(())
}

#[test]
fn block_kinds_have_pins_and_cells(rt: HostRuntime) -> Result<(), Fail> {
    for known in &BLOCKS {
        let block = Block::numbered(Edition::Series90, known.number).ok_or("no block kind")?;
        assert_eq!(rt; block.name(), known.name);
        assert_eq!(rt; block.pins().len(), known.pins);
        assert_eq!(rt; block.cells(), known.cells);
        let item = Item::Kind(block);
        assert_eq!(rt; item.number(), 41);
        assert_eq!(rt; item.argument(), known.number);
        assert_eq!(rt; item.cells(), known.cells);
    }
    Ok(())
}

// Whether there is something: its number is then the one it was found by.
fn is_found(rt: &impl Abort, number: u16, back: Option<u16>) -> bool {
    if let Some(back) = back {
        assert_eq!(rt; back, number);
    }
    back.is_some()
}

// How many numbers stand for something: no other number does.
fn count_found<F: Fn(u16) -> Option<u16>>(rt: &impl Abort, number_again: F) -> usize
    requires { F.IsAlwaysCallable number_again }
{
    let mut count = 0usize;
    for number in 0..=u16::MAX {
        if is_found(rt, number, number_again(number)) {
            count = count.saturating_add(1);
        }
    }
    count
}

#[test]
fn numbers_are_undone(rt: HostRuntime) {
    let kind = |number| Some(Kind::try_from(number).ok()?.number());
    assert_eq!(rt; count_found(&rt, kind), 11);
    let mnemonic = |number| Some(Mnemonic::try_from(number).ok()?.number());
    assert_eq!(rt; count_found(&rt, mnemonic), 34);
    let nameless = |number| Some(Nameless::try_from(number).ok()?.number());
    assert_eq!(rt; count_found(&rt, nameless), 3);
    let block = |number| Some(Block::numbered(Edition::Series90, number)?.number());
    assert_eq!(rt; count_found(&rt, block), 7);
}

// The items whose argument is a word that stands in the text.
#[test]
fn words_are_arguments(rt: HostRuntime) {
    for word in 0..=u16::MAX {
        check_item(&rt, Item::Direct(word), 43, word);
        check_item(&rt, Item::Mark(word), 50, word);
        check_item(&rt, Item::Call(Some(word)), 40, word);
    }
    check_item(&rt, Item::Call(None), 40, 1000);
}

#[test]
fn plain_items_have_no_argument(rt: HostRuntime) {
    check_item(&rt, Item::Nop, 0, 0);
    check_item(&rt, Item::Close, 7, 0);
    check_item(&rt, Item::EndIf, 35, 0);
    check_item(&rt, Item::End, 51, 0);
}
