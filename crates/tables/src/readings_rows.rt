// The rows of a readings table: in and out, at the end and at a place.
ghost use Rattle.std.specs.Prelude.{◌≡◌, ◌-◌, ◌<◌, ◌≤◌, true, false, [], ◌∷◌, ◌++◌, length, take, Some, None, Ok, Err, nat_lt};
ghost use Rattle.lists.specs.Membership.{member};
ghost use Rattle.std.specs.List.{insert, remove};
ghost use Rattle.tables.specs.Readings.{most, goes_back};
ghost use Rattle.tables.specs.ReadingsRecords.{tabled, told};
ghost use Rattle.tables.specs.Rows.{same_row};

use crate::readings::{Readings, ReadingsRecord};
use crate::row::Row;
use lists::{Full, Seq, is_distinct};

impl Readings {
    // The rows, the newest last.
    pub fn rows(&self) -> &[Row]
        ensures { result.now ≡ tabled self.now }
    {
        self.rows.as_slice()
    }

    pub(crate) fn len(&self) -> usize
        ensures is { result ≡ length (tabled self.now) }
        ensures few { result ≤ most }
    {
        self.rows.len()
    }

    // The table with one row more at its end, if there is a place for it.
    pub(crate) fn with(&self, row: Row) -> Result<Readings, Full>
        requires { member same_row row (tabled self.now) ≡ false }
        ensures { elim result [ Ok t ↦ (nat_lt (length (tabled self.now)) most ≡ true) × (tabled t ≡ tabled self.now ++ row ∷ []) | Err _ ↦ nat_lt (length (tabled self.now)) most ≡ false ] }
    {
        let mut rows = self.rows;
        rows.try_push(row)?;
        Ok(Readings { rows })
    }

    // The table without the row at a place.
    pub(crate) fn without(&self, at: usize) -> Readings
        requires { at < length (tabled self.now) }
        ensures { tabled result ≡ remove (tabled self.now) at }
    {
        let mut rows = self.rows;
        let _ = rows.remove(at);
        Readings { rows }
    }

    // The table without its last row, unless it is empty.
    pub(crate) fn without_last(&self) -> Option<Readings>
        ensures { elim result [ Some t ↦ (nat_lt 0 (length (tabled self.now)) ≡ true) × (tabled t ≡ take (length (tabled self.now) - 1) (tabled self.now)) | None ↦ nat_lt 0 (length (tabled self.now)) ≡ false ] }
    {
        let mut rows = self.rows;
        let _ = rows.pop()?;
        Some(Readings { rows })
    }

    // The table with a row put back at a place, if it goes there.
    pub(crate) fn with_at(&self, at: usize, row: Row) -> Option<Readings>
        ensures { elim result [ Some t ↦ (goes_back (tabled self.now) at row ≡ true) × (tabled t ≡ insert (tabled self.now) at row) | None ↦ goes_back (tabled self.now) at row ≡ false ] }
    {
        let mut rows = self.rows;
        if rows.contains(&row) {
            return None;
        }
        rows.try_insert(at, row).ok()?;
        Some(Readings { rows })
    }

    // The table of which a record tells, if it tells of no row twice and of no more rows than there are places. No `TryFrom`, since
    // callers have `from_record`.
    pub(crate) fn of_record(plain: &ReadingsRecord) -> Option<Readings>
        ensures { elim result [ Some t ↦ (told plain.now ≡ true) × (tabled t ≡ take plain.now.len plain.now.items) | None ↦ told plain.now ≡ false ] }
    {
        let rows = Seq::from_plain(plain, Row::default())?;
        if !is_distinct(rows.as_slice()) {
            return None;
        }
        Some(Readings { rows })
    }
}
