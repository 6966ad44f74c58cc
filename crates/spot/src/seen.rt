// A text of any length, chunk by chunk: its length, and line and column of the place at which it would be refused with 1.
ghost use Rattle.std.specs.Prelude.{◌≡◌, List, [], ◌∷◌, ◌++◌, ℕ, ◌+◌, ◌<◌, length};
ghost use Rattle.spot.specs.Lines.{Column};
ghost use Rattle.spot.specs.Seen.{countable, Describes};

// What is known of the bytes so far.
// stays: promise of `Describes`, which speaks of the place also where there is no high byte
#[derive(Clone, Copy)]
pub struct Seen {
    // how many there are
    pub total: usize,
    // the first over 127, or their number where there is none
    pub place: usize,
    pub high: bool,
    // the number of its line, counted from 1, and where that line begins
    pub line: usize,
    pub begin: usize,
}

impl Seen {
    // Nothing yet.
    pub fn nothing() -> Self
        ensures { Describes [] result }
    {
        Self {
            total: 0,
            place: 0,
            high: false,
            line: 1,
            begin: 0,
        }
    }

    // One byte more; behind the first over 127 only the length changes.
    fn byte(self, b: u8) -> Self
        ensures { (t : List ℕ) → length t + 1 < countable → Describes t self → Describes (t ++ (b ∷ [])) result }
    {
        let total = self.total.saturating_add(1);
        if self.high || 127 < b {
            return Self {
                total,
                high: true,
                ..self
            };
        }
        let place = self.place.saturating_add(1);
        if b == b'\n' {
            return Self {
                total,
                place,
                line: self.line.saturating_add(1),
                begin: place,
                ..self
            };
        }
        Self {
            total,
            place,
            ..self
        }
    }

    // A chunk more.
    pub fn see(self, chunk: &[u8]) -> Self
        ensures { (t : List ℕ) → length t + length chunk.now < countable → Describes t self → Describes (t ++ chunk.now) result }
    {
        let mut seen = self;
        for b in chunk {
            seen = seen.byte(*b);
        }
        seen
    }

    // The column of the place, counted from 1.
    pub fn column(self) -> usize
        ensures { (t : List ℕ) → length t < countable → Describes t self → Column t self.place result }
    {
        self.place.saturating_sub(self.begin).saturating_add(1)
    }
}
