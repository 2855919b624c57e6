// The byte layout of a flow sheet: `read` makes a job of bytes, `write` lays a job out into bytes.
#![tactic(auto)]

mod entry;
pub mod fault;
mod page;
mod reader;
mod reading;
mod writing;

pub use fault::Fault;
pub use page::MAX_SHEET;
pub use reading::read;
pub use writing::write;
