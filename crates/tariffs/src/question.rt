// What a tariff is asked: everything about a package that its price may depend on.
#[derive(Clone, Copy, PartialEq, Eq, Debug)]
pub struct Question {
    pub sender: usize,
    pub receiver: usize,
    pub bytes: usize,
    pub transformed: bool,
}
