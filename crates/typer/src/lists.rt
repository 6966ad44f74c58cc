// The types of operands, gathered from the last to the first, and the type of a list of them: 4.1, rules 8 and 9.
ghost use Rattle.std.specs.Prelude.{◌≡◌};
ghost use Rattle.typer.specs.Lists.{join_of};
ghost use Rattle.typer.specs.Summary.{start_of, push_of};

// The first three types of the operands so far, blank where there is no operand, and the type of a list of them.
#[derive(Drop)]
pub struct Summary {
    pub first: u8,
    pub second: u8,
    pub third: u8,
    pub list: u8,
}

impl Summary {
    // No operand.
    pub fn start() -> Self
        ensures { result ≡ start_of }
    {
        Summary {
            first: b' ',
            second: b' ',
            third: b' ',
            list: b'a',
        }
    }

    // One more operand, of type `t`, in front.
    pub fn push(self, t: u8) -> Self
        ensures { result ≡ push_of t self }
    {
        Summary {
            first: t,
            second: self.first,
            third: self.second,
            list: join(t, self.list),
        }
    }
}

// A list of type `l` gets an element of type `x` in front.
fn join(x: u8, l: u8) -> u8
    ensures { result ≡ join_of x l }
{
    match (x, l) {
        (b'T', b'a' | b't') => b't',
        (b'I', b'a' | b'i') => b'i',
        (b'I', b'r') | (b'R', b'a' | b'i' | b'r') => b'r',
        _ => 0,
    }
}
