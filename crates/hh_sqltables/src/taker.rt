//! Takers of rows from the database, one after the other.

ghost use Rattle.std.specs.Prelude.{List, []};
ghost use Rattle.hh_devices.specs.DeviceChanges.{change, DeviceChange};
ghost use Rattle.hh_keyed_rows.specs.RowFaults.{output_refused};
ghost use Rattle.hh_keyed_rows.specs.declared.row_fault.RowFault.{RowFault};
ghost use Rattle.hh_keyed_rows.specs.output_fault.OutputFault.{OutputFault};
ghost use Rattle.hh_sqltables.specs.Giving.{TakesRow};

use hh_devices::Sink;
use hh_keyed_rows::OutputFault;

/// A taker of the rows of a table, each with its key, one after the other. It writes what the rows come to.
pub trait RowTaker<K, V> {
    /// What the rows are written as.
    ghost Report: { Type 0 };

    /// Since it began, it was given exactly these rows, and this is how the output changed.
    ghost has: { DeviceChange → Self → Report → List (K × V) → Type 0 };

    /// It stopped for a fault after these rows, and this is how the output changed.
    ghost stopped: { DeviceChange → Report → OutputFault → List (K × V) → Type 0 };

    /// Takes a row. After an error no more rows are taken.
    ///
    /// # Errors
    ///
    /// `Memory`: memory was refused. `Store`: no office has such a row after those before it. `Write`: the
    /// output failed or took nothing in this call.
    fn take_row<O: Sink>(&mut self, key: &K, value: &V, out: &mut O) -> Result<(), OutputFault>
        ensures { (begun : O) (report : Report) (rows : List (K × V))
            → has (change O.taken O.failures begun out.old) self.old report rows
            → TakesRow (has (change O.taken O.failures begun out.new) self.new report)
            (stopped (change O.taken O.failures begun out.new) report)
            rows (key.now, value.now) result };

    /// The rows may end early, for a fault of the database.
    ghost ends: { (device : DeviceChange) (taker : Self) (report : Report) (rows : List (K × V))
        (fault : RowFault) → has device taker report rows
        → stopped device report (output_refused fault) rows };
}
