// Refusal 4: which rule on names is broken, by which name, and where the other definition stands.
use explain_rows::firsts::{Sort, named, told_at};
use explain_rows::rules;
use explain_rows::rules::Rule;
use row_tests::cells::{handle, word};
use row_tests::texts::same;
use sentences::slips::Sheet;
use sentences::{slips, write};

// A task or data item, the row `j`, that is defined before, as the row `i`.
fn twice(sheet: Sheet, s: Sort, j: usize, i: usize) {
    write::text(b"A ");
    write::text(s.words());
    write::text(b" named ");
    sheet.name(i);
    write::text(b" is defined before, in ");
    sheet.stands(i);
    write::text(b".");
    if !same(sheet.bytes, handle(sheet.rows, i), handle(sheet.rows, j)) {
        write::text(b" Capital letters make no difference.");
    }
}

// An attribute that is given before, as the row `i`.
fn again(sheet: Sheet, i: usize) {
    write::text(b"This attribute is given before, in ");
    slips::place(sheet.text, word(sheet.rows, i));
    write::text(b"; it may be given once.");
}

// A component that names the first plan.
fn root(sheet: Sheet) {
    sheet.name(0);
    write::text(b" is the first plan, in ");
    sheet.stands(0);
    write::text(b"; it is a component of no plan.");
}

// A component that another names before, as the row `i`.
fn component_again(sheet: Sheet, i: usize) {
    sheet.name(i);
    write::text(b" is a component already, in ");
    sheet.stands(i);
    write::text(b"; a task is a component once.");
}

// A component of no task, a source or a target of no data item; it may be a name of the other sort.
fn of_none(sheet: Sheet, s: Sort, else_sort: Sort, h: usize) {
    write::text(b"No ");
    write::text(s.words());
    write::text(b" is named ");
    slips::name(sheet.bytes, h);
    write::text(b".");
    if !sheet.remark(s, h) {
        sheet.other(else_sort, h);
    }
}

// A schedule constraint on its own component, the row `c`.
fn itself(sheet: Sheet, c: usize) {
    write::text(b"The component ");
    sheet.name(c);
    write::text(b" of ");
    sheet.stands(c);
    write::text(b", would wait for itself.");
}

// A schedule constraint on no component of its plan.
fn not_beside(sheet: Sheet, h: usize) {
    write::text(b"This plan has no component named ");
    slips::name(sheet.bytes, h);
    write::text(b".");
    if let Some(i) = named(sheet.rows, sheet.bytes, Sort::Component, false, h, sheet.n) {
        write::text(b" Another plan has, in ");
        sheet.stands(i);
        write::text(b".");
    } else if !sheet.remark(Sort::Component, h) {
        sheet.other(Sort::Item, h);
    }
}

// A task that is not reached from the first plan.
fn unreached(sheet: Sheet, h: usize) {
    write::text(b"The task ");
    slips::name(sheet.bytes, h);
    write::text(b" is never run: ");
    if let Some(i) = named(sheet.rows, sheet.bytes, Sort::Component, false, h, sheet.n) {
        write::text(b"its component stands in ");
        sheet.stands(i);
        write::text(b", in a plan that is not reached from the first plan.");
    } else {
        write::text(b"it is a component of no plan.");
    }
}

// What is said of the row `j`.
fn tell(sheet: Sheet, j: usize) {
    let h = handle(sheet.rows, j);
    match rules::broken(sheet.rows, sheet.n, sheet.bytes, j) {
        Rule::TaskTwice(i) => twice(sheet, Sort::Task, j, i),
        Rule::ItemTwice(i) => twice(sheet, Sort::Item, j, i),
        Rule::AttributeTwice(i) => again(sheet, i),
        Rule::ComponentOfRoot => root(sheet),
        Rule::ComponentTwice(i) => component_again(sheet, i),
        Rule::ComponentOfNone => of_none(sheet, Sort::Task, Sort::Item, h),
        Rule::ConstraintOnItself(c) => itself(sheet, c),
        Rule::ConstraintOnNone => not_beside(sheet, h),
        Rule::SourceOfNone | Rule::TargetOfNone => of_none(sheet, Sort::Item, Sort::Task, h),
        Rule::NotReached => unreached(sheet, h),
        Rule::Kept => {}
    }
}

// The sentence on what is broken at a place.
pub fn why(sheet: Sheet, place: usize) {
    if let Some(j) = told_at(sheet.rows, sheet.n, place) {
        tell(sheet, j);
        write::text(b"\n");
    }
}
