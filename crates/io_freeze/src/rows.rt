//! One row for each head that is held, in the order of the heads.

ghost use Rattle.std.specs.Prelude.{MatchResult};
ghost use Rattle.io_freeze.specs.Rows.{IsAt, IsGap, Rises};

#[derive(Clone, Copy, Debug)]
pub(crate) struct Row {
    pub(crate) head: u32,
    pub(crate) generation: u64,
    pub(crate) frozen: bool,
}

/// Where the row of a head stands, or else where it would go.
pub(crate) fn place_of(rows: &[Row], head: u32) -> Result<usize, usize>
    requires { Rises rows.now }
    ensures { MatchResult result (IsAt rows.now head) (IsGap rows.now head) }
{
    rows.binary_search_by_key(&head, |row| row.head)
}
