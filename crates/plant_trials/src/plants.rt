// Each plant at the first and last points, at points that it has not, and what a put leaves.
use crate::bench::{Bench, Terminal};
use arrayvec::ArrayVec;
use bus::{Bus, Module};
use plant::fault::PlantFault;
use plant::plant::Plant;
use std::alloc::Global;
use std::process::Abort;
use std::test::Fail;
use strip::Strip;

static POINTS: [u16; 9] = [0, 1, 63, 64, 190, 191, 192, 32768, 65535];

static LENGTHS: [usize; 11] = [0, 1, 2, 3, 127, 128, 382, 383, 384, 385, 400];

// What is put in every test.
const WORD: u16 = 0xBEEF;

// All calls at a point that has the input word, or none. A put does not change what is taken.
fn check_calls<P: Plant>(
    rt: &impl Abort,
    plant: &mut P,
    point: u16,
    input: Option<u16>,
    layer: u16,
) {
    let fault = PlantFault { point, layer };
    for _ in 0..2 {
        match input {
            Some(word) => {
                assert_eq!(rt; plant.fitted(point), Ok(()), "{point}");
                assert_eq!(rt; plant.take(point), Ok(word), "{point}");
                assert_eq!(rt; plant.put(point, WORD), Ok(()), "{point}");
            }
            None => {
                assert_eq!(rt; plant.fitted(point), Err(fault), "{point}");
                assert_eq!(rt; plant.take(point), Err(fault), "{point}");
                assert_eq!(rt; plant.put(point, WORD), Err(fault), "{point}");
            }
        }
    }
}

// Words that tell their places.
pub fn numbered(heap: Global, length: usize) -> Result<Vec<u16>, Fail> {
    Ok((0..length).map(|k| (k % 1000) as u16 + 1000).collect(heap)?)
}

fn check_strip(rt: &impl Abort, heap: Global, length: usize, point: u16) -> Result<(), Fail> {
    let mut words = numbered(heap, length)?;
    let mut expected = numbered(heap, length)?;
    let at = 2 * usize::from(point);
    let mut input = None;
    if point < 192 && at + 1 < expected.len() {
        input = Some(expected[at]);
        expected[at + 1] = WORD;
    }
    check_calls(rt, &mut Strip::new(&mut words), point, input, 1);
    assert_eq!(rt; words.as_slice(), expected.as_slice(), "{length} {point}");
    Ok(())
}

#[test]
fn strips(rt: HostRuntime) -> Result<(), Fail> {
    for length in &LENGTHS {
        for point in &POINTS {
            check_strip(&rt, rt.alloc(), *length, *point)?;
        }
    }
    Ok(())
}

// Point, input bytes, output bytes: two records of 5 and of 63, and three that no bus serves.
const MODULES: [(u16, [u8; 4]); 10] = [
    (5, [1, 2, 3, 4]),
    (200, [9, 9, 9, 9]),
    (5, [7, 7, 7, 7]),
    (191, [255, 255, 0, 0]),
    (0, [0, 128, 1, 1]),
    (192, [8, 8, 8, 8]),
    (65535, [8, 8, 8, 8]),
    (63, [13, 0, 0, 0]),
    (64, [0, 14, 0, 0]),
    (63, [6, 6, 6, 6]),
];

// Each point with the place of its first record and its input word.
const SERVED: [(u16, usize, u16); 5] = [
    (5, 0, 513),
    (191, 3, 65535),
    (0, 4, 32768),
    (63, 7, 13),
    (64, 8, 3584),
];

static UNSERVED: [u16; 8] = [1, 62, 65, 190, 192, 200, 32768, 65535];

pub fn modules(heap: Global) -> Result<Vec<Module>, Fail> {
    let mut modules = Vec::new(heap);
    for (point, [input_low, input_high, output_low, output_high]) in MODULES {
        modules.push(Module {
            point,
            input_low,
            input_high,
            output_low,
            output_high,
        })?;
    }
    Ok(modules)
}

// The first record of the point gets the word, low byte first; nothing else changes.
fn check_bus(
    rt: &impl Abort,
    heap: Global,
    point: u16,
    at: usize,
    input: Option<u16>,
) -> Result<(), Fail> {
    let mut records = modules(heap)?;
    let mut expected = modules(heap)?;
    if let Some(module) = expected.get_mut(at) {
        module.output_low = 0xEF;
        module.output_high = 0xBE;
    }
    check_calls(rt, &mut Bus::new(&mut records), point, input, 2);
    assert_eq!(rt; records.as_slice(), expected.as_slice(), "{point}");
    Ok(())
}

#[test]
fn buses(rt: HostRuntime) -> Result<(), Fail> {
    for (point, at, input) in SERVED {
        check_bus(&rt, rt.alloc(), point, at, Some(input))?;
    }
    for point in &UNSERVED {
        check_bus(&rt, rt.alloc(), *point, MODULES.len(), None)?;
    }
    let mut none: [Module; 0] = [];
    check_calls(&rt, &mut Bus::new(&mut none), 0, None, 2);
    Ok(())
}

// Sixteen puts that are not refused, of which the first eight are in the log.
#[test]
fn benches(rt: HostRuntime) -> Result<(), Fail> {
    let mut bench = Bench {
        terminals: vec![in rt.alloc(); Terminal {
            input: 5,
            output: 0
        }; 200]?,
        log: ArrayVec::new(),
    };
    for point in &POINTS {
        let input = (*point < 192).then_some(5);
        check_calls(&rt, &mut bench, *point, input, 7);
    }
    assert_eq!(rt;
        bench.log.as_slice(),
        [0, 0, 1, 1, 63, 63, 64, 64].as_slice()
    );
    assert!(rt; bench.terminals.len() == 200);
    assert_eq!(rt; bench.terminals[64].output, WORD);
    assert_eq!(rt; bench.terminals[65].output, 0);
    Ok(())
}
