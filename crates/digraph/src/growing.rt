//! Rows of entries that grow at their ends in any order.
ghost use Rattle.std.specs.Prelude.{◌≡◌, ◌<◌, ◌≤◌, ◌∷◌, [], ◌==◌, IfOk, OnOk, length, reverse};
ghost use Rattle.std.specs.Prelude.{if◌then◌else◌};
ghost use Rattle.digraph.specs.Rows.{IsRowsOf, GrowsBy};
ghost use Rattle.digraph.specs.Links.{chain, GoesBack};

use crate::rows::Rows;
use std::alloc::{AllocError, Global};
use std::marker::Model;

/// An entry of a row, with the place of the entry before it in its row: 1 more than that one's
/// position in the list of links, or 0 for the first entry of a row.
#[derive(Drop)]
struct Link<T> {
    entry: T,
    before: usize,
}

/// Rows that grow at their ends, in any order. All entries are in one list of links. For each row,
/// `lasts` has the place of its last entry: 1 more than its position, or 0 for an empty row.
#[derive(Drop)]
pub struct GrowingRows<T> {
    lasts: Vec<usize>,
    links: Vec<Link<T>>,
}

impl<T> Model for GrowingRows<T> {
    ghost use Rattle.std.specs.Prelude.{List};

    ghost Value = { List (List T) };

    ghost use Rattle.digraph.specs.Links.{rows_of_links, AreLinked};

    ghost view = { λ r. rows_of_links r.links.items r.lasts.items };

    ghost invariant = { λ r. AreLinked r.links.items r.lasts.items };
}

impl<T: Copy> GrowingRows<T> {
    /// This number of empty rows.
    ///
    /// # Errors
    ///
    /// `AllocError` where an allocation failed.
    pub fn with_rows(alloc: Global, count: usize) -> Result<GrowingRows<T>, AllocError>
        ensures { IfOk result (λ rows. IsRowsOf count (λ _. []) rows) }
    {
        let lasts = vec![in alloc; 0usize; count]?;
        Ok(GrowingRows {
            lasts,
            links: Vec::new(alloc),
        })
    }

    /// Adds an entry at the end of row `n`.
    ///
    /// # Errors
    ///
    /// `AllocError` where an allocation failed.
    pub fn push_to(&mut self, n: usize, entry: T) -> Result<(), AllocError>
        requires { n < length self.old }
        ensures { OnOk result
            (GrowsBy (λ m. if n == m then entry ∷ [] else []) self.old self.new) }
    {
        let before = self.lasts[n];
        self.links.push(Link { entry, before })?;
        self.lasts[n] = self.links.len();
        Ok(())
    }

    /// The same rows, one after another in one list.
    ///
    /// # Errors
    ///
    /// `AllocError` where an allocation failed.
    pub fn finish(&self, alloc: Global) -> Result<Rows<T>, AllocError>
        ensures { IfOk result (λ rows. rows ≡ self.now) }
    {
        let mut rows = Rows::new(alloc);
        let mut row = Vec::new(alloc);
        for last in &self.lasts {
            collect(&self.links, *last, &mut row)?;
            rows.push_row(&row)?;
        }
        Ok(rows)
    }
}

/// Puts the entries of the row whose last entry has this place into `row`, in place of what it has.
fn collect<T: Copy>(links: &[Link<T>], last: usize, row: &mut Vec<T>) -> Result<(), AllocError>
    requires back { GoesBack links.now }
    requires last { last ≤ length links.now }
    ensures { IfOk result (λ _. row.new.items ≡ chain (reverse links.now) last) }
{
    row.clear();
    let mut place = last;
    while place > 0 {
        let link = &links[place - 1];
        row.push(link.entry)?;
        place = link.before;
    }
    row.reverse();
    Ok(())
}
