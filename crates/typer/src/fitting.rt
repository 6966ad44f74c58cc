// The three added rules of document 01 on types: a condition, a caption or description, an assigned expression.
ghost use Rattle.typer.specs.Fitting.{Suits, Assignable};

use super::leaves;

// What an expression is written for; an assigned one, with the handle of the name that it is assigned to.
#[derive(Drop)]
pub enum Role {
    Condition,
    Wording,
    Assigned(usize),
}

// Whether the type found is that of the item with this name, or can be promoted to it.
fn assignable(found: u8, bytes: &[u8], names: &[u32], types: &[u8], h: usize) -> bool
    ensures { Assignable bytes.now names.now types.now h found result }
{
    match parts::names::item(bytes, names, h) {
        Some(i) => resolution::meets(found, leaves::inferred(parts::byte(types, i)), true),
        None => false,
    }
}

// Whether the type found fits the role.
pub fn suits(found: u8, bytes: &[u8], names: &[u32], types: &[u8], role: Role) -> bool
    ensures { Suits bytes.now names.now types.now role found result }
{
    match role {
        Role::Condition => found == b'B',
        Role::Wording => found == b'T',
        Role::Assigned(h) => assignable(found, bytes, names, types, h),
    }
}
