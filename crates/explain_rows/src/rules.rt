// Which rule on names a row breaks, with the row of the other definition. Whether a task is reached is not asked again: a task
// that breaks no other rule is told as one that is not.
ghost use Rattle.std.specs.Prelude.{◌≡◌};
ghost use Rattle.explain_rows.specs.Rules.{Told, TellsTask, TellsItem, TellsComponent, TellsConstraint, TellsSource, TellsTarget, TellsAttribute, own_named, BesideNamed};

use super::firsts::{Sort, before, named};
use row_tests::cells::{handle, kind};
use row_tests::kinds::{is_task, once};
use row_tests::search::{finish, named as named_between, owner, start};
use row_tests::texts::same;
use terminals::Terminal;

const DATA: usize = Terminal::DATA as usize;

const COMPONENT: usize = Terminal::COMPONENT as usize;

const CONSTRAINT: usize = Terminal::SCHEDULE_CONSTRAINT as usize;

const SOURCE: usize = Terminal::SOURCE as usize;

const TARGET: usize = Terminal::EQUALS as usize;

// The rule, and the row of the other definition, where there is one.
#[derive(Drop)]
pub enum Rule {
    TaskTwice(usize),
    ItemTwice(usize),
    AttributeTwice(usize),
    ComponentOfRoot,
    ComponentTwice(usize),
    ComponentOfNone,
    ConstraintOnItself(usize),
    ConstraintOnNone,
    SourceOfNone,
    TargetOfNone,
    NotReached,
    Kept,
}

fn of_task(rows: &[u32], bytes: &[u8], j: usize) -> Rule
    ensures { TellsTask rows.now bytes.now j result }
{
    match named(rows, bytes, Sort::Task, true, handle(rows, j), j) {
        Some(i) => Rule::TaskTwice(i),
        None => Rule::NotReached,
    }
}

fn of_item(rows: &[u32], bytes: &[u8], j: usize) -> Rule
    ensures { TellsItem rows.now bytes.now j result }
{
    match named(rows, bytes, Sort::Item, true, handle(rows, j), j) {
        Some(i) => Rule::ItemTwice(i),
        None => Rule::Kept,
    }
}

fn of_component(rows: &[u32], n: usize, bytes: &[u8], j: usize) -> Rule
    ensures { TellsComponent rows.now n bytes.now j result }
{
    let h = handle(rows, j);
    if same(bytes, handle(rows, 0), h) {
        return Rule::ComponentOfRoot;
    }
    if let Some(i) = named(rows, bytes, Sort::Component, false, h, j) {
        return Rule::ComponentTwice(i);
    }
    match named(rows, bytes, Sort::Task, false, h, n) {
        Some(_) => Rule::Kept,
        None => Rule::ComponentOfNone,
    }
}

// Whether the component `c`, before the row `j`, has the name of the row.
fn is_own(rows: &[u32], bytes: &[u8], j: usize, c: usize) -> bool
    ensures { result ≡ own_named rows.now bytes.now j c }
{
    c < j && same(bytes, handle(rows, c), handle(rows, j))
}

// Whether a component of the plan around the row `j` has its name.
fn is_beside(rows: &[u32], n: usize, bytes: &[u8], j: usize) -> bool
    ensures { BesideNamed rows.now n bytes.now j result }
{
    let a = start(rows, j);
    let z = finish(rows, n, j);
    named_between(rows, bytes, a, z, handle(rows, j))
}

fn of_constraint(rows: &[u32], n: usize, bytes: &[u8], j: usize) -> Rule
    ensures { TellsConstraint rows.now n bytes.now j result }
{
    let c = owner(rows, j);
    if is_own(rows, bytes, j, c) {
        return Rule::ConstraintOnItself(c);
    }
    if is_beside(rows, n, bytes, j) {
        Rule::Kept
    } else {
        Rule::ConstraintOnNone
    }
}

fn of_source(rows: &[u32], n: usize, bytes: &[u8], j: usize) -> Rule
    ensures { TellsSource rows.now n bytes.now j result }
{
    match named(rows, bytes, Sort::Item, false, handle(rows, j), n) {
        Some(_) => Rule::Kept,
        None => Rule::SourceOfNone,
    }
}

fn of_target(rows: &[u32], n: usize, bytes: &[u8], j: usize) -> Rule
    ensures { TellsTarget rows.now n bytes.now j result }
{
    match named(rows, bytes, Sort::Item, true, handle(rows, j), n) {
        Some(_) => Rule::Kept,
        None => Rule::TargetOfNone,
    }
}

fn of_attribute(rows: &[u32], j: usize) -> Rule
    ensures { TellsAttribute rows.now j result }
{
    if !once(kind(rows, j)) {
        return Rule::Kept;
    }
    match before(rows, j) {
        Some(i) => Rule::AttributeTwice(i),
        None => Rule::Kept,
    }
}

// The rule that the row `j` of `n` breaks.
pub fn broken(rows: &[u32], n: usize, bytes: &[u8], j: usize) -> Rule
    ensures { Told rows.now n bytes.now j result }
{
    match kind(rows, j) {
        k if is_task(k) => of_task(rows, bytes, j),
        DATA => of_item(rows, bytes, j),
        COMPONENT => of_component(rows, n, bytes, j),
        CONSTRAINT => of_constraint(rows, n, bytes, j),
        SOURCE => of_source(rows, n, bytes, j),
        TARGET => of_target(rows, n, bytes, j),
        _ => of_attribute(rows, j),
    }
}
