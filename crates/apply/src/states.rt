// "is_dormant", "is_in_progress", "is_discarded" and "is_completed" (11.2.10), over the lent names and states of the tasks.
ghost use Rattle.std.specs.Prelude.{◌≡◌, ◌<◌, length, MatchOption};
ghost use Rattle.paper_expressions.proofs.Laws.Search.{alikeb};
ghost use Rattle.values.specs.Meaning.{bytes_of, handle_of};
ghost use Rattle.apply.specs.Tasks.{FoundTask, StateOf};
ghost use Rattle.apply.specs.IsIn.{Asked};

use parts::HANDLE;
use values::{Handle, Scalar, Value};

// The numbers of the states: docs/TABLES.md.
#[derive(Drop)]
pub struct State;

impl State {
    pub const DORMANT: usize = 1;

    pub const IN_PROGRESS: usize = 2;

    pub const DISCARDED: usize = 3;

    pub const COMPLETED: usize = 4;
}

// The lent names and states of the tasks, and the bytes that hold the names.
#[derive(Clone, Copy)]
pub struct Tasks<'a> {
    pub bytes: &'a [u8],
    pub names: &'a [u32],
    pub states: &'a [u32],
}

impl<'a> Tasks<'a> {
    // Whether the name `x` is alike to the text.
    fn named(self, x: usize, h: Handle) -> bool
        ensures { result ≡ alikeb (bytes_of self.entry.bytes.now (handle_of x)) (bytes_of self.entry.bytes.now h) }
    {
        parts::names::alike(self.bytes, x / HANDLE, x % HANDLE, h.at, h.len)
    }

    // 9.6, where names are apart: the task with that name, if there is one. Task 0 is the root, which has no name.
    fn find_task(self, h: Handle) -> Option<usize>
        ensures { MatchOption result (FoundTask self.entry.bytes.now self.entry.names.now h (length self.entry.names.now)) (λ i. (i < length self.entry.names.now) × FoundTask self.entry.bytes.now self.entry.names.now h i) }
    {
        (1..self.names.len()).find(|i| self.named(parts::number(self.names, *i), h))
    }

    // Whether the task that the text names is in the state; unknown if there is none.
    fn in_state(self, state: usize, h: Handle) -> Scalar
        ensures { StateOf self.entry.bytes.now self.entry.names.now self.entry.states.now state h result }
    {
        match self.find_task(h) {
            Some(i) => Scalar::Truth(parts::number(self.states, i) == state),
            None => Scalar::Unknown,
        }
    }

    // One of the four functors, by the number of its state.
    pub fn is_in(self, state: usize, a: Value) -> Value
        ensures { Asked self.entry.bytes.now self.entry.names.now self.entry.states.now state a result }
    {
        let s = values::scalar_of(a);
        match s {
            Scalar::Text(h) => values::single(self.in_state(state, h)),
            _ => values::single(Scalar::Unknown),
        }
    }
}
