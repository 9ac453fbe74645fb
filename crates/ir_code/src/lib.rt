//! Code resolved from a module: names are numbers, and an instruction is one operation.
#![tactic(auto)]

/// Lists of at most so many items are looked through, which is faster than an index of them.
const SCANNED_MOST: usize = 8;

mod cases;
mod code;
mod images;
mod names;
mod operands;
mod ops;
mod phis;
mod resolving;
mod sizes;
mod symbols;
mod units;
mod values;

pub use cases::Cases;
pub use code::{
    BlockCode, EdgeCode, Exit, FunctionCode, Input, Move, Op, Scaled, Span, Target, Work,
};
pub use images::{GlobalImage, global_images};
pub use resolving::resolve_functions;
pub use symbols::Symbols;
pub use units::{counter_total, module_symbols, site_total};
pub use values::{
    as_number, at_type, base_of, bits_of, bytes_of, is_pointer, number_at, offset_of,
};
