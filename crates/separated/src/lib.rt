// Records of separated values, as RFC 4180 has them, with one byte for the separator: read from bytes as they come in chunks, and written.
#![tactic(auto)]

mod fields;
mod machine;
mod quotes;
mod records;
mod separators;

pub use fields::field;
pub use machine::{Byte, Mode};
pub use quotes::{put, quoted};
pub use records::{Fault, Scan, Taken, begin, finish, take};
pub use separators::{Separator, told_by};
