// What is lent to the evaluator.

// The part table and its bytes, the columns of the data items, and those of the tasks.
#[derive(Clone, Copy)]
pub struct Lent<'a> {
    pub cells: &'a [u32],
    pub bytes: &'a [u8],
    pub names: &'a [u32],
    pub tags: &'a [u32],
    pub nums: &'a [u32],
    pub tasks: &'a [u32],
    pub states: &'a [u32],
}
