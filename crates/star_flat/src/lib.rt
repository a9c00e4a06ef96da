//! Lists in flat storage: of texts, one buffer for the bytes of all and one for where each ends; of
//! texts, many of them equal: the kept ones, and for each text a position among these; of numbers,
//! words no wider than they need. And of a list of texts the different ones in order, with the
//! position of each text among them.
#![tactic(auto)]

mod coding;
mod ends;
mod marks;
mod met;
mod numbers;
mod ordered;
mod pages;
mod repeated;
mod slot;
mod texts;
mod words;

pub use numbers::FlatNumbers;
pub use pages::release;
pub use repeated::RepeatedTexts;
pub use slot::{SLOTS, slot_of};
pub use texts::FlatTexts;
pub use words::{SignedWord, SignedWords};
