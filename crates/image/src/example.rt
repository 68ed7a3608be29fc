// A small list with its image written out.
ghost use Rattle.image.specs.Example.{ExampleHolds};

// The image of the example list is the word list that stands in the specification.
pub fn example_image() -> u8
    ensures { ExampleHolds }
{
    0
}
