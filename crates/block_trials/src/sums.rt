// Every operation at both ends of the words, by zero, and on values that no word has.
use crate::rows::numbers;
use number::limit::{Width, correct, limit};
use number::operations::{add, divide, multiply, negate, rounded_delay, subtract};

// operation, left, right, result
static SUMS: &str = "+ 32767 1 32767
+ 32766 1 32767
+ -32767 -1 -32767
+ 32767 -32767 0
+ 2147483647 2147483647 32767
+ -2147483648 -2147483648 -32767
- -32767 1 -32767
- -32766 1 -32767
- 32767 -1 32767
- 5 7 -2
- -2147483648 2147483647 -32767
* 32767 32767 32767
* -32767 32767 -32767
* 181 181 32761
* 182 181 32767
* -182 181 -32767
* -2147483648 -2147483648 32767
* -2147483648 2147483647 -32767
: -7 2 -3
: 7 -2 -3
: 7 2 3
: -7 -2 3
: 3 3 1
: 4 3 1
: 5 3 1
: 6 3 2
: 5 0 32767
: -5 0 -32767
: 0 0 0
: 0 5 0
: 32767 -1 -32767
: -32768 -1 32767
: -2147483648 -1 32767
: -2147483648 1 -32767
minus 32767 0 -32767
minus -32767 0 32767
minus -32768 0 32767
minus -2147483648 0 32767
word -32768 0 -32767
word -32767 0 -32767
word 32768 0 32767
word 12 0 12
double -2147483648 0 -2147483647
double -2147483647 0 -2147483647
double 2147483647 0 2147483647
double -32768 0 -32768
delay -2147483648 0 0
delay -5 0 0
delay 0 0 0
delay 4 0 0
delay 5 0 5
delay 12 0 10
delay 2147483647 0 2147483645";

fn result_of(operation: &str, left: i32, right: i32) -> Option<i32> {
    match operation {
        "+" => Some(add(left, right)),
        "-" => Some(subtract(left, right)),
        "*" => Some(multiply(left, right)),
        ":" => Some(divide(left, right)),
        "minus" => Some(negate(left)),
        "word" => Some(correct(Width::Word, left)),
        "double" => Some(correct(Width::Double, left)),
        "delay" => Some(limit(Width::Double, i64::from(rounded_delay(left)))),
        _ => None,
    }
}

// Whether a line holds; none where it is no sum.
fn holds(line: &str) -> Option<bool> {
    let (operation, rest) = line.split_once(' ')?;
    let values = numbers(rest)?;
    let result = result_of(operation, values[0], values[1])?;
    Some(result == values[2])
}

#[test]
fn sums_are_limited(rt: HostRuntime) {
    // the lines up to the first that does not hold
    let holding = SUMS.lines().take_while(|line| holds(line) == Some(true));
    assert_eq!(rt; holding.count(), 53);
}
