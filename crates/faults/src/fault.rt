// A fault: which call of which layer was refused, and why.
ghost use Rattle.std.specs.Prelude.{◌≡◌};

use crate::cause::Cause;

// The layers that refuse.
#[derive(Clone, Copy, PartialEq, Eq, Debug)]
pub enum Layer {
    Plans,
    Layouts,
    Drawings,
    Tariffs,
    Assignment,
    Links,
    Book,
}

// The calls that are refused. A layer and a call together name one function.
#[derive(Clone, Copy, PartialEq, Eq, Debug)]
pub enum Call {
    Make,
    Ask,
    Read,
    Write,
    Solve,
    Judge,
    Bill,
    Zero,
    At,
    Set,
    Put,
    Look,
    Drop,
    Cover,
    Draw,
    Settle,
    Adopt,
    Begin,
    Keep,
    Post,
    Take,
    Finish,
    Abandon,
}

#[derive(Clone, Copy, PartialEq, Eq, Debug)]
pub struct Fault {
    pub layer: Layer,
    pub call: Call,
    pub cause: Cause,
}

impl Fault {
    pub fn new(layer: Layer, call: Call, cause: Cause) -> Fault
        ensures value { result ≡ record { layer = layer; call = call; cause = cause } }
    {
        Fault { layer, call, cause }
    }
}
