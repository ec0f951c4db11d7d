// A job that is planned.
use drawings::Drawing;
use plans::Plan;

// `words` are those of an element, `own` is the cost of own names, and `bill` that of the plan's naming.
#[derive(Clone, Copy)]
pub struct Planned {
    pub boards: usize,
    pub words: u8,
    pub drawing: Drawing,
    pub own: u64,
    pub bill: u64,
    pub plan: Plan,
}
