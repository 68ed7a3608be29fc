// What a list names, and question 14 put to plants that lack some of it.
ghost use Rattle.plant_trials.specs.declared.lists.Refusal.TheVariants.{Unfitted as Of};
ghost use Rattle.std.specs.Prelude.{◌≡◌};

use crate::plants::{modules, numbered};
use bus::Bus;
use decode::items::Items;
use named::fitting::first_unfitted;
use named::sets::named_points;
use operand::edition::Edition;
use plant::fault::{PlantFault, Unfitted};
use plant::plant::Plant;
use std::alloc::Global;
use std::process::Abort;
use std::test::Fail;
use strip::Strip;

static ITEMS: [[u16; 2]; 12] = [
    [1, 0], // !
    [8, 5], // E 00,05
    [10, 0], // &
    [8, 5119], // A 63,15
    [30, 8208], // = M 01,00
    [31, 24703], // =N AW 07,15
    [8, 1024], // no operand
    [42, 20480], // EW 00,00 as a pin
    [43, 5], // # 5
    [9, 1], // no item
    [34, 4128], // =R A 02,00
    [30, 20481], // = EW 00,01
];

static INPUTS: [usize; 3] = [0, 64, 65];

static OUTPUTS: [usize; 3] = [2, 63, 191];

// Words of a strip, with the place and the point of the first item that it does not fit.
const STRIPS: [(usize, usize, u16); 5] = [
    (0, 1, 0),
    (1, 1, 0),
    (2, 3, 63),
    (128, 5, 191),
    (383, 5, 191),
];

// A refusal of a caller's own, which takes the fault whole.
#[derive(Clone, Copy, Debug, PartialEq)]
pub enum Refusal {
    Late,
    Unfitted(Unfitted),
}

impl From<Unfitted> for Refusal {
    ghost from_gives = { λ e r. r ≡ Of e };

    fn from(fault: Unfitted) -> Refusal {
        Refusal::Unfitted(fault)
    }
}

// The words of the items, and half an item behind them.
fn items(heap: Global) -> Result<Vec<u16>, Fail> {
    let mut words = Vec::new(heap);
    for item in &ITEMS {
        words.extend_from_slice(item)?;
    }
    words.push(8)?;
    Ok(words)
}

fn list(words: &[u16]) -> Items<'_> {
    Items {
        edition: Edition::Series90,
        words,
    }
}

fn ask<P: Plant>(plant: &P, items: &[u16], ms: u32) -> Result<(), Refusal> {
    if ms > 60_000 {
        return Err(Refusal::Late);
    }
    first_unfitted(plant, list(items))?;
    Ok(())
}

fn unfitted(place: usize, point: u16, layer: u16) -> Refusal {
    Refusal::Unfitted(Unfitted {
        place,
        fault: PlantFault { point, layer },
    })
}

fn check_set(rt: &impl Abort, set: &[bool; 192], points: &[usize; 3]) {
    for (point, named) in set.iter().enumerate() {
        assert_eq!(rt; *named, points.contains(&point), "{}", point);
    }
}

#[test]
fn lists_name_points(rt: HostRuntime) -> Result<(), Fail> {
    let items = items(rt.alloc())?;
    let named = named_points(list(&items));
    check_set(&rt, &named.inputs, &INPUTS);
    check_set(&rt, &named.outputs, &OUTPUTS);
    Ok(())
}

#[test]
fn first_item_unfitted(rt: HostRuntime) -> Result<(), Fail> {
    let items = items(rt.alloc())?;
    for (length, place, point) in STRIPS {
        let mut words = numbered(rt.alloc(), length)?;
        assert_eq!(rt;
            ask(&Strip::new(&mut words), &items, 10),
            Err(unfitted(place, point, 1)),
            "{length}"
        );
    }
    let mut words = numbered(rt.alloc(), 384)?;
    let strip = Strip::new(&mut words);
    assert_eq!(rt; ask(&strip, &items, 10), Ok(()));
    assert_eq!(rt; ask(&strip, &items, 60_001), Err(Refusal::Late));
    let mut records = modules(rt.alloc())?;
    let bus = Bus::new(&mut records);
    assert_eq!(rt; ask(&bus, &items, 10), Err(unfitted(10, 2, 2)));
    assert_eq!(rt; ask(&bus, &[], 10), Ok(()));
    Ok(())
}
