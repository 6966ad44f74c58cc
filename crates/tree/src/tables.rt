// The tables that a guideline is told from.
#[derive(Clone, Copy)]
pub struct Tables<'a> {
    pub rows: &'a [u32],
    pub parts: &'a [u32],
    pub texts: &'a [u8],
    pub plan: &'a [u32],
    pub state: &'a [u32],
}

impl Tables<'_> {
    // The name of the task `t`.
    pub fn name_task(&self, t: usize) {
        worded::task(self.rows, self.texts, self.plan, t);
    }

    // The name of the data item `d`.
    pub fn name_item(&self, d: usize) {
        worded::item(self.texts, self.plan, d);
    }
}
