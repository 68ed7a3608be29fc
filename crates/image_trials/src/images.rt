// Images, word by word.
use image::write::Written;
use operand::edition::Edition;
use std::alloc::Global;
use std::process::Abort;
use std::test::Fail;
use translate::refusal::Refusal;
use translate::translate::translate;

// What stands in a buffer before a translation.
const BEFORE: u16 = 0xBEEF;

static SAMPLE: &str = "
!BA 7 ESV E 00,00 KD 00,01 A 02,00
! E 00,01 = M 01,00
!PE
KD 00,01 := 500
";

static SAMPLE_WORDS: &str = "
40 7  41 1  42 0  42 40961  42 4128
1 0  8 1  30 8208
51 0
40961 500 0
27 9 1 2 90 44081
";

// Every mnemonic, kind of operand and block kind.
static EVERY: &str = "
NOP ! !N !- ( (N (- )
& &N / /N + - * *- : :-
> < >= =? <> <=
= A 63,15 =N M 255,10 =- MW 123,04 =S S 127,00 =R S 0,15 =PE
E 1,2 K 0,1 EW 7,15 AW 0,1 KW 39,15 MD 31,0 KD 7,15
!BA !BA 0 !BA 999
MOA E 0,0 # -1 M 200,7
I+ E 0,1 = A 0,3 A 0,2
MULDI # -32768 # 32767 ! # -0 AW 1,1 MW 100,10
CTUD E 0,2
ZUWD KD 0,0 KD 0,1 KD 0,2
SPBM M 0,1 # 10 # 11
MA 0 MA 999
ESV
!PE
KW 0,12 := -1 KW 1,0 := -32767 KW 39,15 := 32767
KD 0,0 := -2147483647 KD 0,1 := -1 KD 1,0 := 65536 KD 7,15 := 2147483647
";

static EVERY_WORDS: &str = "
0 0  1 0  2 0  3 0  4 0  5 0  6 0  7 0
10 0  11 0  12 0  13 0  14 0  15 0  16 0  17 0  18 0  19 0
20 0  21 0  22 0  23 0  24 0  25 0
30 5119  31 12282  32 30644  33 14320  34 12303  35 0
8 18  8 16385  8 20607  8 24577  8 33407  8 37360  8 41087
40 1000  40 0  40 999
41 3  42 0  43 65535  42 11399
41 4  42 1  30 4099  42 4098
41 6  43 32768  43 32767  1 0  43 0  42 24593  8 30282
41 5  42 2
41 7  42 40960  42 40961  8 40962
41 8  42 8193  43 10  43 11
50 0  50 999
41 1
51 0
32780 65535 0  32784 32769 0  33407 32767 0
40960 1 32768  40961 65535 65535  40976 0 1  41087 65535 32767
165 69 7 8 90 44081
";

fn words_of(heap: Global, shown: &str) -> Result<Vec<u16>, Fail> {
    let mut words = Vec::new(heap);
    for word in shown.split_whitespace() {
        words.push(word.parse::<u16>()?)?;
    }
    Ok(words)
}

// The image in a buffer with room for so many words more, which are as before. Here and below a handle and an allocator are handed on,
// as the library's macros take them.
fn check_written(
    rt: &impl Abort,
    heap: Global,
    text: &[u8],
    words: &[u16],
    more: usize,
    counts: Written,
) -> Result<(), Fail> {
    let mut expected = words.to_vec(heap)?;
    for _ in 0..more {
        expected.push(BEFORE)?;
    }
    let mut buffer = vec![in heap; BEFORE; expected.len()]?;
    assert_eq!(rt;
        translate(heap, Edition::Series90, text, &mut buffer),
        Ok(counts)
    );
    assert_eq!(rt; buffer.as_slice(), expected.as_slice());
    Ok(())
}

// Fewer words than the image has.
fn check_shorter(rt: &impl Abort, heap: Global, text: &[u8], room: usize) -> Result<(), Fail> {
    let mut buffer = vec![in heap; BEFORE; room]?;
    assert_eq!(rt;
        translate(heap, Edition::Series90, text, &mut buffer),
        Err(Refusal::TooLong)
    );
    let before = vec![in heap; BEFORE; room]?;
    assert_eq!(rt; buffer.as_slice(), before.as_slice());
    Ok(())
}

fn check_image(
    rt: &impl Abort,
    heap: Global,
    text: &str,
    shown: &str,
    counts: Written,
) -> Result<(), Fail> {
    let text = text.as_bytes();
    let words = words_of(heap, shown)?;
    check_written(rt, heap, text, &words, 0, counts)?;
    check_written(rt, heap, text, &words, 5, counts)?;
    for room in 0..words.len() {
        check_shorter(rt, heap, text, room)?;
    }
    Ok(())
}

#[test]
fn sample_is_written(rt: HostRuntime) -> Result<(), Fail> {
    let counts = Written {
        length: 27,
        items: 9,
        constants: 1,
        cells: 2,
    };
    check_image(&rt, rt.alloc(), SAMPLE, SAMPLE_WORDS, counts)
}

#[test]
fn every_mnemonic_is_written(rt: HostRuntime) -> Result<(), Fail> {
    let counts = Written {
        length: 165,
        items: 69,
        constants: 7,
        cells: 8,
    };
    check_image(&rt, rt.alloc(), EVERY, EVERY_WORDS, counts)
}

// An empty text has a trailer and nothing else.
#[test]
fn empty_text_is_written(rt: HostRuntime) -> Result<(), Fail> {
    let counts = Written {
        length: 6,
        items: 0,
        constants: 0,
        cells: 0,
    };
    check_image(&rt, rt.alloc(), "", "6 0 0 0 90 44081", counts)
}

fn check_refused(rt: &impl Abort, heap: Global, text: &[u8], refusal: Refusal) {
    let mut buffer = [BEFORE; 5];
    assert_eq!(rt;
        translate(heap, Edition::Series90, text, &mut buffer),
        Err(refusal)
    );
    assert_eq!(rt; buffer, [BEFORE; 5]);
}

// That a buffer is too short is told last.
#[test]
fn refusals_have_an_order(rt: HostRuntime) -> Result<(), Fail> {
    let mut many = Vec::new(rt.alloc());
    for _ in 0..4096 {
        many.extend_from_slice(b"NOP ")?;
    }
    check_refused(&rt, rt.alloc(), &many, Refusal::TooLong);
    many.extend_from_slice(b"!PE ")?;
    check_refused(&rt, rt.alloc(), &many, Refusal::TooMany);
    many.extend_from_slice(b"5 ")?;
    check_refused(&rt, rt.alloc(), &many, Refusal::Misplaced(16388));
    many.extend_from_slice(b"x")?;
    check_refused(&rt, rt.alloc(), &many, Refusal::Unknown(16390));
    Ok(())
}
