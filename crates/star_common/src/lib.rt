//! What every crate uses: decimal numbers, quoted texts, printable bytes, lists that contracts see
//! as lists, and sinks for output.
#![tactic(auto)]

mod delivery;
mod items;
mod numeral;
mod printable;
mod quoting;
mod sink;

pub use delivery::{WriteFault, write_whole};
pub use items::Items;
pub use numeral::numeral_value;
pub use printable::{are_printable, is_printable};
pub use quoting::push_quoted;
pub use sink::{Out, Sink, SinkFault};
