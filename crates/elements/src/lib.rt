// What a matrix holds: the kinds of elements, and the trait that each of them meets.
#![tactic(auto)]

pub mod element;
pub mod pair;
pub mod pairs;
pub mod word;
pub mod words;

pub use element::Element;
pub use pair::Pair;
pub use word::Word;
