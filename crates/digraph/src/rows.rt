//! Rows of entries, one row after another in one list.
ghost use Rattle.std.specs.Prelude.{◌≡◌, ◌<◌, ◌≤◌, ◌-◌, ◌∷◌, [], ◌++◌, OnOk, OnErr, length};
ghost use Rattle.std.specs.Prelude.{take, drop, slice_index};
ghost use Rattle.digraph.specs.Graph.{row_at};

use std::alloc::{AllocError, Global};
use std::marker::Model;

/// Rows of entries, which are all in one list. For each row it is known where in the list the row
/// ends; it begins where the row before it ends.
#[derive(Drop)]
pub struct Rows<T> {
    entries: Vec<T>,
    ends: Vec<usize>,
}

impl<T> Model for Rows<T> {
    ghost use Rattle.std.specs.Prelude.{List, length};
    ghost use Rattle.digraph.specs.Rows.{AreEnds, rows_between};

    ghost Value = { List (List T) };

    ghost view = { λ r. rows_between r.entries.items 0 r.ends.items };

    ghost invariant = { λ r. AreEnds (length r.entries.items) 0 r.ends.items };
}

impl<T: Copy> Rows<T> {
    /// No rows. Nothing is allocated yet.
    pub fn new(alloc: Global) -> Rows<T>
        ensures { result ≡ [] }
    {
        Rows {
            entries: Vec::new(alloc),
            ends: Vec::new(alloc),
        }
    }

    /// The number of rows.
    pub fn len(&self) -> usize
        ensures { result ≡ length self.now }
    {
        self.ends.len()
    }

    /// The row with this number; an empty one where there is none.
    pub fn row(&self, n: usize) -> &[T]
        ensures { result.now ≡ row_at self.now n }
    {
        match self.ends.get(n) {
            Some(end) => part(&self.entries, start_of(&self.ends, n), *end),
            None => &[],
        }
    }

    /// Adds a row at the end.
    ///
    /// # Errors
    ///
    /// `AllocError` where an allocation failed; the rows do not change then.
    pub fn push_row(&mut self, row: &[T]) -> Result<(), AllocError>
        ensures ok { OnOk result (self.new ≡ self.old ++ row.now ∷ []) }
        ensures err { OnErr result (self.new ≡ self.old) }
    {
        self.ends.reserve(1)?;
        self.entries.extend_from_slice(row)?;
        self.ends.push_reserved(self.entries.len());
        Ok(())
    }
}

/// Where the row with this number begins: where the row before it ends.
fn start_of(ends: &[usize], n: usize) -> usize
    requires { n < length ends.now }
    ensures { result ≡ slice_index (0 ∷ ends.now) n }
{
    match n.checked_sub(1) {
        Some(before) => ends[before],
        None => 0,
    }
}

/// The entries from one position up to another.
fn part<T>(entries: &[T], start: usize, end: usize) -> &[T]
    requires order { start ≤ end }
    requires within { end ≤ length entries.now }
    ensures { result.now ≡ take (end - start) (drop start entries.now) }
{
    &entries[start..end]
}
