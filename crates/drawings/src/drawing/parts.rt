// The parts that a drawing was made of.
ghost use Rattle.std.specs.Prelude.{◌≡◌};

use crate::drawing::Drawing;
use layouts::Layout;
use overlays::Operation;

impl Drawing {
    pub fn operation(&self) -> Operation
        ensures value { result ≡ self.now.operation }
    {
        self.operation
    }

    pub fn target(&self) -> &Layout
        ensures value { result.now ≡ self.now.target }
    {
        &self.target
    }

    pub fn source(&self) -> &Layout
        ensures value { result.now ≡ self.now.source }
    {
        &self.source
    }

    pub fn source_share(&self) -> usize
        ensures value { result ≡ self.now.source_share }
    {
        self.source_share
    }

    pub fn target_share(&self) -> usize
        ensures value { result ≡ self.now.target_share }
    {
        self.target_share
    }
}
