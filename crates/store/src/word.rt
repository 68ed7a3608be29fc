// Words as they are held.
ghost use Rattle.std.specs.Prelude.{◌≡◌};
ghost use Rattle.number.specs.Limits.{limited_to};
ghost use Rattle.number.specs.declared.limit.Width.TheVariants.{Word};

use number::limit::{Width, limit};

// The lawful word nearest to a value.
pub fn limited_word(value: i32) -> i16
    ensures { result ≡ limited_to Word value }
{
    limit(Width::Word, i64::from(value)) as i16
}
