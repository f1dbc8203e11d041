//! The rows of a file, judged one after the other.

ghost use Rattle.std.specs.Prelude.{◌≡◌, ◌+◌, ◌<◌, false, length, IfOk, OnOk};
ghost use Rattle.hh_names.specs.Faults.{faults, IsOutcomeOrNoMemory};
ghost use Rattle.hh_rows.specs.declared.rows.Row.TheVariants as rows;
ghost use Rattle.hh_rules.specs.Effects.{fixes_reference, row_done};
ghost use Rattle.hh_rules.specs.steps.Effects.{HasRoomFor};
ghost use Rattle.hh_rules.specs.FileRows.{JudgesFile};
ghost use Rattle.hh_rules.specs.steps.FileRows.{judged_row_at, with_volumes_of};
ghost use Rattle.hh_rules.specs.RegisterView.{after_row, done_at, register_after, tables_in};
ghost use Rattle.hh_rules.specs.steps.RegisterView.{IsKeptIn};

use crate::last_asked::LastAsked;
use crate::register::Register;
use crate::row_done::RowDone;
use hh_names::{Counterparties, Fault, Reference};
use hh_rows::{ContractRow, Row};
use jiff::tz::TimeZone;
use std::alloc::{AllocError, Global};
use std::marker::Model;

/// The outcome of an accepted file's rows: those that are not late, in their order, how many are
/// late, and the references that the rows fixed, those of late rows included (profile).
#[derive(Debug, Drop)]
pub struct FileRows {
    rows: Vec<Row>,
    late: u32,
    references: Vec<(Reference, Counterparties)>,
}

impl Model for FileRows {
    ghost use Rattle.hh_rules.specs.FileRows.{FileRowsView};

    ghost Value = { FileRowsView };

    ghost view = { λ f. record {
      rows = f.rows.items;
      late = f.late;
      references = f.references.items;
    } };
}

impl FileRows {
    ghost use Rattle.hh_rules.specs.steps.FileRows.{no_rows, with_done, with_fixed};

    /// No rows, with room for `count` of them. `Err` only if memory is refused.
    fn with_room(alloc: Global, count: usize) -> Result<FileRows, AllocError>
        ensures { IfOk result (λ file. file ≡ no_rows) }
    {
        Ok(FileRows {
            rows: Vec::with_capacity(alloc, count)?,
            late: 0,
            references: Vec::new(alloc),
        })
    }

    /// The rows that are not late, in their order.
    pub fn rows(&self) -> &[Row]
        ensures { result.now ≡ self.now.rows }
    {
        &self.rows
    }

    /// The references that the rows fixed, each with its seller and buyer, in the order of their first
    /// rows (Section P in shape).
    pub fn references(&self) -> &[(Reference, Counterparties)]
        ensures { result.now ≡ self.now.references }
    {
        &self.references
    }

    /// The rows that are not late, and the references that the rows fixed.
    pub fn into_parts(self) -> (Vec<Row>, Vec<(Reference, Counterparties)>)
        ensures rows { result.0.items ≡ self.rows }
        ensures references { result.1.items ≡ self.references }
    {
        (self.rows, self.references)
    }

    /// How many rows are late.
    pub fn late(&self) -> u32
        ensures { result ≡ self.now.late }
    {
        self.late
    }

    /// Adds one more row, by what became of it.
    fn add(&mut self, row: &Row, done: RowDone) -> Result<(), AllocError>
        requires { self.old.late < 4294967295 }
        ensures ok { OnOk result (self.new ≡ with_done row.now done self.old) }
    {
        match done {
            RowDone::Applied { fixes_reference } => {
                self.rows.push(*row)?;
                self.fix(fixes_reference, row)
            }
            RowDone::Late { fixes_reference } => {
                self.late += 1;
                self.fix(fixes_reference, row)
            }
        }
    }

    /// Keeps the seller and buyer of a row of contracts, if it fixes them.
    fn fix(&mut self, fixes_reference: bool, row: &Row) -> Result<(), AllocError>
        ensures ok { OnOk result (self.new ≡ with_fixed fixes_reference row.now self.old) }
    {
        if !fixes_reference {
            return Ok(());
        }
        if let Row::Contract(row) = row {
            self.references
                .push((row.key.reference, row.contract.counterparties))?;
        }
        Ok(())
    }
}

impl Register {
    /// The outcome of a file's rows, judged one after the other, that come at a moment in seconds since
    /// 1970-01-01T00:00:00Z (profile). A refusal is that of the first refused row: 30 to 42 with the
    /// row's number, or 90 if memory is refused. The register must serve for the rows, and is used up.
    pub fn judge_file(
        mut self,
        alloc: Global,
        zone: &TimeZone<'_>,
        moment: i64,
        rows: &[Row],
    ) -> Result<FileRows, Fault>
        requires { length rows.now < 4294967295 }
        ensures judged { JudgesFile zone.now self moment rows.now result }
        ensures count { IfOk result (λ file. length file.rows + file.late ≡ length rows.now) }
    {
        let mut last = LastAsked::nothing();
        let mut file = FileRows::with_room(alloc, rows.len())?;
        for (index, row) in rows.iter().enumerate() {
            let done = self.take_row(&mut last, zone, moment, index as u32 + 1, row)?;
            file.add(row, done)?;
        }
        Ok(file)
    }

    /// Takes a row of this number in its file, as `apply_row` does. The readings, prices and contract
    /// volumes in force stay as they are, because no row is judged by them.
    fn take_row(
        &mut self,
        last: &mut LastAsked,
        zone: &TimeZone<'_>,
        moment: i64,
        number: u32,
        row: &Row,
    ) -> Result<RowDone, Fault>
        requires { IsKeptIn zone.now last.old.day }
        ensures kept { IsKeptIn zone.now last.new.day }
        ensures judged { IsOutcomeOrNoMemory faults (λ _. tt) result
            (judged_row_at zone.now self.old moment number row.now) }
        ensures next { OnOk result (self.new
            ≡ with_volumes_of self.old (register_after zone.now self.old moment row.now)) }
        ensures done { IfOk result (λ done. done ≡ done_at zone.now self.old moment row.now) }
    {
        match self.judge(last, zone, moment, row) {
            Ok(in_time) => Ok(self.note(in_time, row)?),
            Err(refusal) => Err(Fault::at_row(refusal, number)),
        }
    }

    /// Makes an accepted row's changes to what rows are judged by, and says what became of the row.
    fn note(&mut self, in_time: bool, row: &Row) -> Result<RowDone, AllocError>
        requires { HasRoomFor in_time row.now self.old.standing }
        ensures ok { OnOk result (self.new
            ≡ with_volumes_of self.old (after_row in_time row.now self.old)) }
        ensures done { IfOk result (λ done.
            done ≡ row_done in_time (fixes_reference (tables_in self.old) row.now)) }
    {
        let fixes_reference = self.fixes_reference(row);
        match row {
            Row::Party(row) => self.put_party(*row)?,
            Row::Unit(row) => self.put_unit(*row)?,
            Row::Contract(row) => self.put_reference(row)?,
            Row::Reallocation(row) => self.put_reallocation(in_time, *row)?,
            Row::Meter(_) | Row::Price(_) => {}
        }
        Ok(RowDone::of(in_time, fixes_reference))
    }

    /// Fixes the seller and the buyer of a row's reference, if it is new.
    fn put_reference(&mut self, row: &ContractRow) -> Result<(), AllocError>
        ensures ok { OnOk result (self.new
            ≡ with_volumes_of self.old (after_row false (rows.Contract row.now) self.old)) }
    {
        if self.reference(&row.key.reference).is_some() {
            return Ok(());
        }
        self.hold_reference(row.key.reference, row.contract.counterparties)
    }
}
