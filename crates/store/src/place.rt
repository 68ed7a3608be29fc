// Elements by place: past the end nothing is read and nothing is written.
ghost use Rattle.std.specs.Prelude.{◌≡◌, slice_index_or, slice_set};
ghost use Rattle.store.specs.Places.{filled, spread, gathered};

// The element, or what stands for it past the end.
pub fn at<T: Copy>(xs: &[T], place: usize, past: T) -> T
    ensures { result ≡ slice_index_or xs.now place past }
{
    xs.get(place).copied().unwrap_or(past)
}

pub fn put<T: Copy>(xs: &mut [T], place: usize, x: T)
    ensures { xs.new ≡ slice_set xs.old place x }
{
    // `get_mut` would tell nothing of what is written through it
    if place < xs.len() {
        xs[place] = x;
    }
}

// Puts one value into `count` places.
#[tactic(auto, using(crate::proofs::Spans::filled_none, crate::proofs::Spans::filled_more))]
pub fn fill<T: Copy>(xs: &mut [T], first: u16, count: u16, x: T)
    ensures { xs.new ≡ filled xs.old first count x }
{
    // `fill` of a slice asks for a clone that cannot fail, which `Copy` alone does not tell
    for k in 0..count {
        put(xs, usize::from(first) + usize::from(k), x);
    }
}

// Lays the bits of a word into sixteen places, the lowest first.
#[tactic(auto, using(crate::proofs::Spans::spread_none, crate::proofs::Spans::spread_more, crate::proofs::Spans::bit_here))]
pub fn spread_word(xs: &mut [bool], first: u16, word: u16)
    ensures { xs.new ≡ spread xs.old first word 16 }
{
    for k in 0..16u16 {
        put(xs, usize::from(first) + usize::from(k), word >> k & 1 == 1);
    }
}

// The word whose bits stand in sixteen places, the lowest first.
#[tactic(auto, using(crate::proofs::Spans::gathered_none, crate::proofs::Spans::gathered_room, crate::proofs::Spans::gathered_more, crate::proofs::Spans::byte_at_most))]
pub fn gather_word(xs: &[bool], first: u16) -> u16
    ensures { result ≡ gathered xs.now first 16 }
{
    let mut word = 0;
    for k in (0..16u16).rev() {
        let bit = at(xs, usize::from(first) + usize::from(k), false);
        word = 2 * word + u16::from(bit);
    }
    word
}
