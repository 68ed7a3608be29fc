// The cases that a program reads, tried one by one.
use std::alloc::Global;

// Tries the case of each line, but for a line that is empty or a heading. Prints what came in place
// of what was due, and how many came out as they were. No contract can say what is printed.
pub fn try_lines<F: Fn(Global, &str) -> anyhow::Result<Option<String>>>(
    rt: &HostRuntime,
    subjects: &str,
    try_case: F,
) -> anyhow::Result<()>
    requires { F.IsAlwaysCallable try_case }
{
    let mut right = 0usize;
    let mut all = 0usize;
    for line in rt.lines(rt.alloc()) {
        let line = line?;
        let line = line.as_str();
        if line.is_empty() || line.starts_with("//") {
            continue;
        }
        all = all.saturating_add(1);
        match try_case(rt.alloc(), line)? {
            None => right = right.saturating_add(1),
            Some(wrong) => println!(rt; "{wrong}: {line}")?,
        }
    }
    println!(rt; "{right} of {all} {subjects}")?;
    Ok(())
}
