// The numbers that values hold, and the wider ones that they are computed in.
ghost use Rattle.std.specs.Prelude.{◌≡◌, ◌≤◌, ◌*◌, ◌^◌, nat_abs, ◌*ℤ◌, leb};
ghost use Rattle.paper_expressions.specs.Limits.{integer_limit, real_limit};
ghost use Rattle.paper_expressions.specs.Values.{unit};
ghost use Rattle.paper_expressions.proofs.Laws.Only.{zero_z};

// An integer, or a real as a whole number of thousandths.
#[derive(Clone, Copy, PartialEq, Eq)]
pub struct Num {
    pub z: i32,
}

impl Num {
    // integers lie within plus or minus this
    pub const INTEGER_LIMIT: i64 = 2_000_000;

    // and the thousandths of reals within this
    pub const REAL_LIMIT: i64 = 2_000_000_000;

    pub const UNIT: i64 = 1000;

    // An integer in thousandths.
    pub fn thousandths(self) -> Wide
        ensures { (result.z ≡ self.z *ℤ unit) × (nat_abs result.z ≤ 2 ^ 41) }
    {
        Wide {
            z: i64::from(self.z) * Num::UNIT,
        }
    }
}

// A number on its way, with room for sums, products and quotients.
#[derive(Clone, Copy, PartialEq, Eq)]
pub struct Wide {
    pub z: i64,
}

impl From<Num> for Wide {
    ghost from_gives = { λ n r. (r.z ≡ n.z) × (nat_abs r.z ≤ 2 ^ 31) };

    fn from(n: Num) -> Wide {
        Wide { z: i64::from(n.z) }
    }
}

impl Wide {
    pub fn is_zero(self) -> bool
        ensures { result ≡ zero_z self.z }
    {
        self.z == 0
    }

    // A thousand times a number of thousandths.
    pub fn scaled(self) -> Wide
        requires { nat_abs self.z ≤ 2 ^ 41 }
        ensures { (result.z ≡ self.z *ℤ unit) × (nat_abs result.z ≤ 2 ^ 62) }
    {
        Wide {
            z: self.z * Num::UNIT,
        }
    }

    // What is within a limit, as values hold it.
    pub fn narrow(self) -> Num
        requires { nat_abs self.z ≤ real_limit }
        ensures { result.z ≡ self.z }
    {
        Num { z: self.z as i32 }
    }
}

pub fn wide_of(n: Num) -> Wide
    ensures { (result.z ≡ n.z) × (nat_abs result.z ≤ 2 ^ 31) }
{
    Wide::from(n)
}

pub fn integer_fits(w: Wide) -> bool
    ensures { result ≡ leb (nat_abs w.z) integer_limit }
{
    (-Num::INTEGER_LIMIT..=Num::INTEGER_LIMIT).contains(&w.z)
}

pub fn real_fits(w: Wide) -> bool
    ensures { result ≡ leb (nat_abs w.z) real_limit }
{
    (-Num::REAL_LIMIT..=Num::REAL_LIMIT).contains(&w.z)
}
