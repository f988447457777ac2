// An entry among the entries of a table.
ghost use Rattle.std.specs.Prelude.{ℕ, ◌≤◌, ◌<◌, length, get_or};

// Where an entry stands in the data of its table, whose bytes behind it may be looked at too. It has a byte at least.
#[derive(Clone, Copy)]
pub struct Entry<'a> {
    pub table: &'a [u8],
    pub start: usize,
    pub end: usize,
    ghost some: { start < end },
    ghost inside: { end ≤ length table.now },
    ghost bytes: { (i : ℕ) → get_or table.now i 0 < 256 },
}
