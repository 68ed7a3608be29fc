// A buffer that is written into, and the place where it goes on.
ghost use Rattle.std.specs.Prelude.{◌^◌, ◌<◌, length};

#[derive(Drop)]
pub struct Pen<'a> {
    pub out: &'a mut [u8],
    // where the next byte goes; past the end of the buffer it counts on
    pub at: usize,
    ghost counted: { at < 2 ^ 64 },
    ghost in_memory: { length out.now < 2 ^ 64 },
}
