//! Why a text was not read.

use thiserror::Error;

/// The refusals of [`crate::read`].
#[derive(Clone, Copy, Debug, PartialEq, Eq, Drop, Error)]
pub enum ReadError {
    /// The text spells no module. The place is where that showed.
    #[error("syntax at byte {at}")]
    Syntax { at: usize },
    /// The text has more than 16,777,216 bytes.
    #[error("a text of {length} bytes is too long")]
    TextLimit { length: usize },
    #[error("out of memory")]
    NoMemory,
}
