// Values as the engine holds them.
#![tactic(auto)]

mod list;
mod scalar;
mod text;
mod value;

pub use list::{Cell, List, empty, get, push, put, size};
pub use scalar::{Scalar, Tag, integer, is_unknown, real};
pub use text::{Handle, handle_of, is_level, text_order};
pub use value::{Value, many, scalar_of, single};
