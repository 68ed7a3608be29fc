// The operations on words: the exact whole number, limited once. Each tells that its result is lawful: a type of lawful words would
// have to be taken apart at each use, since every operation takes any value.
ghost use Rattle.std.specs.Prelude.{◌≡◌, true, negsuc, ◌*ℤ◌, ◌≤ℤ◌};
ghost use Rattle.number.specs.Limits.{lawful};
ghost use Rattle.number.specs.Operations.{sum, difference, product, negative, quotient, scaled, natural, rounded_delay, cut};
ghost use Rattle.number.specs.declared.limit.Width.TheVariants.{Word};

use crate::limit::{Width, limit};

pub fn add(a: i32, b: i32) -> i32
    ensures value { result ≡ sum a b }
    ensures lawful { lawful Word result ≡ true }
{
    limit(Width::Word, i64::from(a) + i64::from(b))
}

pub fn subtract(a: i32, b: i32) -> i32
    ensures value { result ≡ difference a b }
    ensures lawful { lawful Word result ≡ true }
{
    limit(Width::Word, i64::from(a) - i64::from(b))
}

pub fn negate(a: i32) -> i32
    ensures value { result ≡ negative a }
    ensures lawful { lawful Word result ≡ true }
{
    limit(Width::Word, -i64::from(a))
}

// The exact product, and that it can be divided by -1.
fn exact_product(a: i32, b: i32) -> i64
    ensures value { result ≡ a *ℤ b }
    ensures above { negsuc 9223372036854775806 ≤ℤ result }
{
    i64::from(a) * i64::from(b)
}

// The quotient cut towards 0; by 0 the end of the words on the dividend's side.
fn cut_quotient(dividend: i64, divisor: i64) -> i64
    requires { negsuc 9223372036854775806 ≤ℤ dividend }
    ensures { result ≡ cut dividend divisor }
{
    if divisor == 0 {
        32_767 * dividend.signum()
    } else {
        dividend / divisor
    }
}

pub fn multiply(a: i32, b: i32) -> i32
    ensures value { result ≡ product a b }
    ensures lawful { lawful Word result ≡ true }
{
    limit(Width::Word, exact_product(a, b))
}

// `a : b`
pub fn divide(a: i32, b: i32) -> i32
    ensures value { result ≡ quotient a b }
    ensures lawful { lawful Word result ≡ true }
{
    limit(Width::Word, cut_quotient(i64::from(a), i64::from(b)))
}

// `z1 × z2 : z3`: only the result is limited, so a product may pass the words on its way.
pub fn multiply_divide(z1: i32, z2: i32, z3: i32) -> i32
    ensures value { result ≡ scaled z1 z2 z3 }
    ensures lawful { lawful Word result ≡ true }
{
    limit(
        Width::Word,
        cut_quotient(exact_product(z1, z2), i64::from(z3)),
    )
}

// A value below 0 counts as 0.
pub fn at_least_zero(a: i32) -> u32
    ensures { result ≡ natural a }
{
    u32::try_from(a).unwrap_or(0)
}

// A delay in ms, rounded down to a multiple of 5.
pub fn rounded_delay(zd: i32) -> u32
    ensures { result ≡ rounded_delay zd }
{
    at_least_zero(zd) / 5 * 5
}
