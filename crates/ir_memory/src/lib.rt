//! The memory of a run: numbered allocations of cells, of which each is a byte or a piece of a pointer.
#![tactic(auto)]

mod bytes;
mod cells;
mod error;
mod image;
mod live_object;
mod memory;
mod parts;
mod stored_pointer;
mod value;

pub use error::MemError;
pub use image::Image;
pub use memory::{CELL_LIMIT, Memory};
pub use value::{Base, Value, address};

#[cfg(test)]
mod tests;
