// Numbers of lines, which count from 1.
ghost use Rattle.std.specs.Prelude.{◌≡◌, ◌+◌, ◌^◌, ◌<◌, ◌≤◌};

#[derive(Clone, Copy)]
pub(crate) struct Line {
    pub(crate) number: usize,
    ghost counted: { 1 ≤ number },
}

impl Line {
    pub(crate) fn first() -> Line
        ensures value { result.number ≡ 1 }
    {
        Line { number: 1 }
    }

    pub(crate) fn next(self) -> Line
        requires fits { self.number + 1 < 2 ^ 64 }
        ensures value { result.number ≡ self.number + 1 }
    {
        Line {
            number: self.number + 1,
        }
    }
}
