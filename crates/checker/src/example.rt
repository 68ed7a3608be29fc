// Two small images, one that passes and one that does not.
ghost use Rattle.checker.specs.Examples.{ExamplesHold};

// The definitions let one of the two through, and no other verdict is theirs.
pub fn example_verdicts() -> u8
    ensures { ExamplesHold }
{
    0
}
