// Lines of numbers.

// The first thirteen numbers of a line; none where one of these words is no number.
pub fn numbers(line: &str) -> Option<[i32; 13]> {
    let mut values = [0; 13];
    for (value, word) in values.iter_mut().zip(line.split(' ')) {
        *value = word.parse().ok()?;
    }
    Some(values)
}
