// Numbers as the engine holds them, their arithmetic and their order.
#![tactic(auto)]

mod arithmetic;
mod number;
mod sign;

pub use arithmetic::{cut, difference, order, product, sum};
pub use number::{Num, Wide, integer_fits, real_fits, wide_of};
pub use sign::Sign;
