// What comp answers: 1, -1, 0, unknown, or that no clause of it fits.
#[derive(Clone, Copy, PartialEq, Eq)]
pub enum Sign {
    Greater,
    Less,
    Equal,
    Unknown,
    Unfit,
}
