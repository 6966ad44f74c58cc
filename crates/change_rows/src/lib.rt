// The Changes table as a list of rows that is lent: a slice of structs. Rows are appended, taken back and cleared here; what they mean is settled over plain numbers.
#![tactic(auto)]

ghost use Rattle.std.specs.Prelude.{◌≡◌, ◌<◌, ◌≤◌, length};
ghost use Rattle.change_rows.specs.Blank.{Blanked};
ghost use Rattle.change_rows.specs.Numbers.{row_at, written, Appended, Taken};

// A row that is asked for: its component, its property, and the tag and number of its new value.
#[repr(C)]
#[derive(Clone, Copy)]
pub struct Row {
    pub component: u32,
    pub property: u32,
    pub tag: u32,
    pub number: u32,
}

impl Row {
    // numbers in a row
    pub const NUMBERS: usize = 4;
}

// The rows that a cycle asks for, as plain numbers: how many, and the numbers of each.
#[derive(Clone, Copy)]
pub struct Asked {
    pub n: usize,
    pub cells: [u32; Asked::NUMBERS],
}

impl Asked {
    // rows that a cycle asks for at most
    pub const ROWS: usize = 576;

    pub const NUMBERS: usize = Asked::ROWS * Row::NUMBERS;
}

// The i-th of the rows.
fn row_of(cells: &[u32; Asked::NUMBERS], i: usize) -> Row
    requires { i < 576 }
    ensures { result ≡ row_at cells.now i }
{
    let b = Row::NUMBERS * i;
    Row {
        component: cells[b],
        property: cells[b + 1],
        tag: cells[b + 2],
        number: cells[b + 3],
    }
}

// Writes a row as the i-th.
fn write(cells: &mut [u32; Asked::NUMBERS], i: usize, row: Row)
    requires { i < 576 }
    ensures { cells.new ≡ written cells.old i row }
{
    let b = Row::NUMBERS * i;
    cells[b] = row.component;
    cells[b + 1] = row.property;
    cells[b + 2] = row.tag;
    cells[b + 3] = row.number;
}

// Appends the rows to an empty table: they are its first ones.
pub fn append(rows: &mut [Row], a: Asked)
    requires { (a.n ≤ 576) × (a.n ≤ length rows.old) }
    ensures { Appended a.n a.cells rows.old rows.new }
{
    for i in 0..a.n {
        rows[i] = row_of(&a.cells, i);
    }
}

// The first n rows, as numbers.
pub fn taken(rows: &[Row], n: usize) -> Asked
    requires { (n ≤ 576) × (n ≤ length rows.now) }
    ensures { (result.n ≡ n) × Taken n rows.now result.cells }
{
    let mut cells = [0; Asked::NUMBERS];
    for i in 0..n {
        write(&mut cells, i, rows[i]);
    }
    Asked { n, cells }
}

// Makes the first n rows blank.
pub fn clear(rows: &mut [Row], n: usize)
    requires { n ≤ length rows.old }
    ensures { Blanked n rows.old rows.new }
{
    rows[..n].fill(Row {
        component: 0,
        property: 0,
        tag: 0,
        number: 0,
    });
}
