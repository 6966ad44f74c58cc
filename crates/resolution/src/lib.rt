// The choice among an operator's allowed types: 4.1, rule 10, with the promotions of 4.2.
// An allowed type is four letters: up to three operands, blanks after them, and the result.
#![tactic(auto)]

ghost use Rattle.std.specs.Prelude.{◌≡◌, [], ◌∷◌, ◌+◌, ◌<◌, get_or, length};
ghost use Rattle.resolution.specs.Resolution.{promotes_of, set_of, meets_of, all_meet, first_of, resolve_of};
ghost use Rattle.resolution.specs.Allowed.{function_of, list_of};

use parts::Family;

// What setof_anything can be promoted to.
fn is_set(u: u8) -> bool
    ensures { result ≡ set_of u }
{
    matches!(u, b't' | b'i' | b'r')
}

// 4.2: whether the type `x` can be promoted to `u`.
fn promotes(x: u8, u: u8) -> bool
    ensures { result ≡ promotes_of x u }
{
    match x {
        b'I' => u == b'R',
        b'i' => u == b'r',
        b'a' => is_set(u),
        _ => false,
    }
}

// Whether `x` is `u` or, if asked for, can be promoted to it.
pub fn meets(x: u8, u: u8, promoted: bool) -> bool
    ensures { result ≡ meets_of promoted x u }
{
    x == u || (promoted && promotes(x, u))
}

// The result of the first entry that the operands meet, or 0.
fn first(list: &[u8], x: u8, y: u8, z: u8, promoted: bool) -> u8
    ensures { result ≡ first_of promoted (x ∷ y ∷ z ∷ []) list.now }
{
    let mut entries = list;
    while let [a, b, c, result, rest @ ..] = entries {
        if meets(x, *a, promoted) && meets(y, *b, promoted) && meets(z, *c, promoted) {
            return *result;
        }
        entries = rest;
    }
    0
}

// Rule 10: the exact entry first, then the first that one promotion for each operand reaches.
fn resolve(list: &[u8], x: u8, y: u8, z: u8) -> u8
    ensures { result ≡ resolve_of (x ∷ y ∷ z ∷ []) list.now }
{
    let exact = first(list, x, y, z, false);
    if exact != 0 {
        exact
    } else {
        first(list, x, y, z, true)
    }
}

// Section 11: the allowed types of each function and prefix operator, by the family of its number.
fn apply_function(tens: usize, x: u8, y: u8, z: u8) -> u8
    ensures { result ≡ resolve_of (x ∷ y ∷ z ∷ []) (function_of tens) }
{
    match tens {
        Family::NEGATE => resolve(b"I  IR  R", x, y, z),
        Family::ISKNOWN => resolve(b"T  BR  Bt  Br  BB  B", x, y, z),
        Family::NOT => resolve(b"B  B", x, y, z),
        Family::COUNT => resolve(b"r  It  I", x, y, z),
        Family::SUM => resolve(b"i  Ir  R", x, y, z),
        Family::EXTREME => resolve(b"i  Ir  Rt  T", x, y, z),
        Family::NTH => resolve(b"Ii IIr RIt T", x, y, z),
        Family::TASK_STATE => resolve(b"T  B", x, y, z),
        _ => 0,
    }
}

// The allowed types of every operator. In two functions, for each makes its lists anew when it is called.
pub fn apply(tens: usize, x: u8, y: u8, z: u8) -> u8
    ensures { result ≡ resolve_of (x ∷ y ∷ z ∷ []) (list_of tens) }
{
    match tens {
        Family::ARITHMETIC => resolve(b"II IRR R", x, y, z),
        Family::DIVIDE => resolve(b"RR R", x, y, z),
        Family::COMPARISON => resolve(b"RR BTT Brr Btt B", x, y, z),
        Family::LOGIC => resolve(b"BB B", x, y, z),
        Family::INCLUDES => resolve(b"tT BrR B", x, y, z),
        Family::ONEOF => resolve(b"Tt BRr B", x, y, z),
        Family::IF => resolve(b"BBBBBIIIBRRRBTTTBiiiBrrrBttt", x, y, z),
        _ => apply_function(tens, x, y, z),
    }
}
