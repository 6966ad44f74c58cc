// The types of atoms and constants: 4.1, rules 1 to 4, with the table of 4.3.
ghost use Rattle.std.specs.Prelude.{◌≡◌};
ghost use Rattle.typer.specs.Leaves.{inferred_of, AtomTyped, LeafTyped};

use parts::Code;

// 4.3: the type of a data item by its declared type, in the order of the table.
pub fn inferred(declared: u8) -> u8
    ensures { result ≡ inferred_of declared }
{
    parts::byte(b" TITRRRRtir", declared as usize)
}

// Rule 1: the type of the data item whose name is alike, else text. The task is for rule 1a, parameters, which is left out.
fn atom(task: usize, h: usize, bytes: &[u8], names: &[u32], types: &[u8]) -> u8
    ensures { AtomTyped bytes.now names.now types.now task h result }
{
    match parts::names::item(bytes, names, h) {
        Some(i) => inferred(parts::byte(types, i)),
        None => b'T',
    }
}

// Rules 1 to 4, by the kind of the part and its load.
pub fn leaf(task: usize, kind: usize, load: u32, bytes: &[u8], names: &[u32], types: &[u8]) -> u8
    ensures { LeafTyped bytes.now names.now types.now task kind load result }
{
    match kind {
        Code::ATOM => atom(task, load as usize, bytes, names, types),
        Code::INTEGER => b'I',
        Code::FLOAT => b'R',
        Code::STRING => b'T',
        _ => 0,
    }
}
