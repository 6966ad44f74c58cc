// The values of atoms and constants: 9.1, clauses 1 to 3.
ghost use Rattle.evaluator.specs.Leaves.{AtomOf, LeafOf};

use super::items;
use super::lent::Lent;
use parts::Code;
use values::{Scalar, Value};

impl<'a> Lent<'a> {
    // Clause 1: the value of the data item whose name is alike, else the text itself.
    fn atom(self, h: usize) -> Value
        ensures { AtomOf self.entry.bytes.now self.entry.names.now self.entry.tags.now self.entry.nums.now h result }
    {
        match parts::names::item(self.bytes, self.names, h) {
            Some(i) => items::value(self.tags, self.nums, i),
            None => values::single(Scalar::Text(values::handle_of(h))),
        }
    }

    // Clauses 1 to 3, by the code of the part and its load. A constant's code is its tag.
    pub fn leaf(self, kind: usize, load: u32) -> Value
        ensures { LeafOf self.entry.bytes.now self.entry.names.now self.entry.tags.now self.entry.nums.now kind load result }
    {
        if kind == Code::ATOM {
            self.atom(load as usize)
        } else {
            values::single(items::scalar(kind, load))
        }
    }
}
