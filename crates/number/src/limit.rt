// Lawful words and doubles. An operand's value is a whole number held as `i32`.
ghost use Rattle.std.specs.Prelude.{◌≡◌, true, pos};
ghost use Rattle.number.specs.Limits.{top_of, limited_to, lawful, corrected};

#[derive(Clone, Copy, Debug, PartialEq, Eq)]
pub enum Width {
    Word,
    Double,
}

impl Width {
    // The largest lawful value; the lowest is its negative.
    pub fn top(self) -> i32
        ensures { result ≡ pos (top_of self) }
    {
        match self {
            Width::Word => 32_767,
            Width::Double => 2_147_483_647,
        }
    }
}

// The lawful value nearest to a whole number.
pub fn limit(width: Width, number: i64) -> i32
    ensures value { result ≡ limited_to width number }
    ensures lawful { lawful width result ≡ true }
    ensures same { lawful width number ≡ true → result ≡ number }
{
    let top = i64::from(width.top());
    number.clamp(-top, top) as i32
}

// What is read where an operand holds `held`: a forbidden value is read as the lowest lawful one.
pub fn correct(width: Width, held: i32) -> i32
    ensures value { result ≡ corrected width held }
    ensures lawful { lawful width result ≡ true }
    ensures same { lawful width held ≡ true → result ≡ held }
{
    limit(width, i64::from(held))
}
