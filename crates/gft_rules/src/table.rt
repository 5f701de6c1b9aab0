//! Tables of rows that are a number and a text.
ghost use Rattle.std.specs.Prelude.{◌≡◌, ◌<◌, ◌≤◌, length, slice_get, Some, IsTrue, position};
ghost use Rattle.std.specs.Str.{bytes_eq};
ghost use Rattle.gft_rules.specs.Tables.{is_table, rows_of};

use std::marker::Model;

/// A table of N rows, each a code and a text. No code and no text stands twice. Contracts see the
/// list of the rows, the texts as their bytes.
#[derive(Drop)]
pub struct Table<const N: usize> {
    rows: &'static [(u32, &'static str)],
}

impl<const N: usize> Model for Table<N> {
    ghost use Rattle.std.specs.Prelude.{ℕ, List, length, ◌≡◌, ◌≤◌, IsTrue};
    ghost use Rattle.gft_rules.specs.Tables.{is_table, rows_of};

    ghost Value = { List (ℕ × List ℕ) };

    ghost view = { λ t. rows_of t.rows.now };

    ghost invariant = { λ t. (length t.rows.now ≡ N) × (N ≤ 256) × IsTrue (is_table (rows_of t.rows.now)) };
}

impl<const N: usize> Table<N> {
    /// The table of these rows. It takes no memory.
    pub fn new(rows: &'static [(u32, &'static str)]) -> Table<N>
        requires rows { length rows.now ≡ N }
        requires short { N ≤ 256 }
        requires apart { IsTrue (is_table (rows_of rows.now)) }
        ensures { result ≡ rows_of rows.now }
    {
        Table { rows }
    }

    /// The row at place i, from 0. It takes no memory.
    pub fn row(&self, i: usize) -> (u32, &str)
        requires { i < N }
        ensures { slice_get self.now i ≡ Some (result.0, result.1.now) }
    {
        let rows = self.rows;
        rows[i]
    }

    /// The place of the row with this text, from 0; None where no row has it. It looks at each row
    /// in turn and takes no memory.
    pub fn find(&self, text: &str) -> Option<usize>
        ensures { result ≡ position (λ r. bytes_eq r.1 text.now) self.now }
    {
        self.rows.iter().position(|row| row.1 == text)
    }
}
