// Captions, with the value that their expressions have now.
use crate::owners;
use crate::owners::Owner;
use crate::tables::Tables;
use row_tests::cells::end;
use sentences::write;

// A data item's caption is evaluated for the root.
const ROOT: usize = 0;

impl Tables<'_> {
    // The value of the expression of the row `i` for the task `t`, behind a colon.
    fn tell_caption(&self, t: usize, i: usize) {
        let e = end(self.rows, i);
        let v = truths::value_at(self.parts, self.texts, self.plan, self.state, t, e);
        write::text(b": ");
        worded::value(self.texts, v);
    }

    // The caption of the owner with the number `n`, if it has one.
    fn caption(&self, o: Owner, n: usize, t: usize) {
        if let Some(j) = owners::row(self.rows, o, n) {
            if let Some(i) = owners::caption(self.rows, j) {
                self.tell_caption(t, i);
            }
        }
    }

    // The caption of the task `t`.
    pub fn task_caption(&self, t: usize) {
        self.caption(Owner::Task, t, t);
    }

    // The caption of the data item `d`.
    pub fn item_caption(&self, d: usize) {
        self.caption(Owner::Item, d, ROOT);
    }

    // The caption of the source `n` of the task `t`.
    pub fn source_caption(&self, n: usize, t: usize) {
        self.caption(Owner::Source, n, t);
    }
}
