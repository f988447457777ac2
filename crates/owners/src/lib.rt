// The owner table of a cache: a row of three words for each slot, its mark, its instance and the length of its file. As many
// rows are looked through as a table has.
#![tactic(auto)]

ghost use Rattle.std.specs.Prelude.{Bool, ◌*◌, ◌≤◌, ◌<◌, length, replicate, ◌≡◌};
ghost use Rattle.encoding.specs.Out.{Tells};
ghost use Rattle.slots.specs.Lent.{Rows, Once};
ghost use Rattle.owners.specs.declared.Row.{Row};
ghost use Rattle.owners.specs.Owners.{rows_in, row_at, is_free, is_of, Such, FreeRow, RowOf, FirstRow, HeldAmong};
ghost use Rattle.owners.specs.Notes.{bucket_of, Notes, NewRow, SoFar, Turn};

use sheet::word_at;

// A row: mark 0 is free, and anything else is taken.
#[derive(Clone, Copy)]
struct Row {
    mark: u64,
    instance: u64,
    len: u64,
}

impl Row {
    fn is_free(self) -> bool
        ensures { result ≡ is_free self }
    {
        self.mark == 0
    }

    // Whether the row is taken by an instance.
    fn is_of(self, instance: u64) -> bool
        ensures { result ≡ is_of instance self }
    {
        self.instance == instance && self.mark != 0
    }
}

// An owner table by its whole rows. A function that is told a row looks at those before it, or at that one.
#[derive(Clone, Copy)]
struct Table<'a> {
    owners: &'a [u8],
    rows: usize,
    ghost inside: { rows * 24 ≤ length owners.now },
}

impl<'a> Table<'a> {
    fn new(owners: &'a [u8]) -> Self
        ensures owners { result.owners.now ≡ owners.now }
        ensures rows { result.rows ≡ rows_in owners.now }
    {
        Table {
            owners,
            rows: owners.len() / 24,
        }
    }

    // Reads a row. Its bytes are lent by themselves, so that the compiler sees that its words are there.
    fn row(self, row: usize) -> Row
        requires { row < self.rows }
        ensures { result ≡ row_at self.entry.owners.now row }
    {
        let start = row * 24;
        let end = start + 24;
        let words = &self.owners[start..end];
        Row {
            mark: word_at(words, 0),
            instance: word_at(words, 1),
            len: word_at(words, 2),
        }
    }

    // The first of so many rows that is wanted; their number if none is.
    fn first_row<F: Fn(Row) -> bool>(self, rows: usize, wanted: F) -> usize
        requires inside { rows ≤ self.rows }
        requires callable { F.IsAlwaysCallable wanted }
        ensures { (is : Row → Bool) → ((r : Row) (t : Bool) → F.post wanted r t → t ≡ is r) → FirstRow (Such is self.entry.owners.now) rows result }
    {
        for row in 0..rows {
            if wanted(self.row(row)) {
                return row;
            }
        }
        rows
    }

    // Whether a taken row has an instance that no taken row before it has; and it is noted for those behind it. A place
    // below 128 is empty, and a full one tells a row by its lower bits. A row whose first place is full is compared with the
    // row that is told there if its second place is empty, else with all before it; so is every row from 128 on, which no
    // place tells.
    fn is_new(self, row: usize, instance: u64, notes: &mut [u8]) -> bool
        requires { (row < self.rows) × Notes self.owners.now notes.old row }
        ensures { NewRow self.entry.owners.now row instance notes.new result }
    {
        let first = bucket(instance);
        let seen = notes[first] as usize;
        if seen < 128 {
            notes[first] = (128 + row % 128) as u8;
            return true;
        }
        if row < 128 {
            let second = bucket(instance / 1048576);
            if notes[second] < 128 {
                notes[second] = (128 + row) as u8;
                return !self.row(seen - 128).is_of(instance);
            }
        }
        self.first_row(row, |before| before.is_of(instance)) == row
    }

    // Whether a row is good, those before it being good and noted; then it is noted too. A taken one has no length above the
    // slot's, and an instance that no taken row before it has.
    fn row_good(self, row: usize, this: Row, size: u64, notes: &mut [u8]) -> bool
        requires { (row < self.rows) × SoFar size self.owners.now notes.old row × (this ≡ row_at self.owners.now row) }
        ensures { Turn size self.entry.owners.now row notes.new result }
    {
        if this.is_free() {
            return true;
        }
        if size < this.len {
            return false;
        }
        self.is_new(row, this.instance, notes)
    }

    // Whether the rows are good. A row that fits and whose first place is empty is, and is noted whether it is taken or not:
    // nearly all are such, and of those nothing else is asked.
    fn rows_good(self, size: u64, notes: &mut [u8]) -> bool
        requires { notes.old ≡ replicate 1024 0 }
        ensures { Tells (Rows size self.entry.owners.now self.entry.rows) result }
    {
        for row in 0..self.rows {
            let this = self.row(row);
            let first = bucket(this.instance);
            if notes[first] < 128 && this.len <= size {
                notes[first] = (128 + row % 128) as u8;
            } else if !self.row_good(row, this, size, notes) {
                return false;
            }
        }
        true
    }

    // The row of an instance among good ones. The one that the notes tell is looked at first, and is believed only if it says
    // so itself.
    fn noted_row(self, instance: u64, notes: &[u8]) -> usize
        requires { (length notes.now ≡ 1024) × Once self.owners.now self.rows }
        ensures { FirstRow (RowOf instance self.entry.owners.now) self.entry.rows result }
    {
        let first = bucket(instance);
        let seen = notes[first] as usize;
        if 128 <= seen {
            let noted = seen - 128;
            if noted < self.rows && self.row(noted).is_of(instance) {
                return noted;
            }
        }
        self.first_row(self.rows, |row| row.is_of(instance))
    }
}

// Where the row of an instance is noted. Numbers that follow each other, and addresses, fall apart.
fn bucket(instance: u64) -> usize
    ensures { result ≡ bucket_of instance }
{
    ((instance % 1024 + instance / 1024 % 1024) % 1024) as usize
}

// Judges the rows of a table, for slots of so many bytes, and finds the one that an instance has: their number if it has
// none, and nothing if they are not good.
pub fn held_row(owners: &[u8], size: u64, instance: u64) -> Option<usize>
    ensures { HeldAmong size instance owners.now (rows_in owners.now) result }
{
    let table = Table::new(owners);
    let mut notes = [0u8; 1024];
    if !table.rows_good(size, &mut notes) {
        return None;
    }
    Some(table.noted_row(instance, &notes))
}

// The first row of a table that is free; the number of its rows if none is.
pub fn free_row(owners: &[u8]) -> usize
    ensures { FirstRow (FreeRow owners.now) (rows_in owners.now) result }
{
    let table = Table::new(owners);
    table.first_row(table.rows, |row| row.is_free())
}
