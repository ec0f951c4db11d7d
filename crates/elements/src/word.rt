// The element of one word.
ghost use Rattle.std.specs.Prelude.{◌<◌};

#[derive(Clone, Copy, PartialEq, Eq, Debug)]
pub struct Word {
    pub value: u32,
    ghost fits: { value < 4294967296 },
}
