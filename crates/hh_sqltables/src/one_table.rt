//! A table of an office as a type: its form, and the texts of its statements.

ghost use Rattle.sqlite_schema.specs.declared.schema.Schema.{Schema};
ghost use Rattle.std.specs.Prelude.{Bool};
ghost use Rattle.hh_sqltables.specs.Forms.{TableForm};
ghost use Rattle.hh_sqltables.specs.Texts.{IsFinding, IsInsertOf, IsListing, IsPut, IsQuery, IsRemoval, IsTableOf};

use hh_keyed_rows::Columned;

/// A table of an office.
pub trait OfficeTable {
    type Key: Columned + Drop;

    type Value: Columned + Drop;

    /// The schema of which it is a table.
    ghost schema: { Schema };

    /// Its place in the schema, its columns, and the order of its keys.
    ghost form: { TableForm Self.Key Self.Value };

    /// The statement that writes a row, with the columns of its key and of its value as parameters.
    fn put() -> &'static str
        ensures { IsPut schema form result.now };

    ghost is_table: { IsTableOf schema form Self.Key.codec Self.Value.codec };
}

/// A table into which many rows are written at once.
pub trait Grouped: OfficeTable {
    /// The statement that writes `GROUP` rows whose keys are new.
    fn group() -> &'static str
        ensures { IsInsertOf Self.schema Self.form result.now 8 };
}

/// A table that is listed whole.
pub trait Listed: OfficeTable {
    /// The statement that selects all rows, in the order of their keys.
    fn all() -> &'static str
        ensures { IsListing Self.schema Self.form result.now };
}

/// A table in which a row is found by its key.
pub trait Found: OfficeTable {
    /// The statement that selects the row of a key, whose columns are its parameters.
    fn one() -> &'static str
        ensures { IsFinding Self.schema Self.form result.now };
}

/// A table that is listed under a part of its keys.
pub trait Under<A: Columned>: OfficeTable {
    /// Whether a key is under a value.
    ghost is_under: { A → Self.Key → Bool };

    /// The statement that selects the rows whose keys are under a value, in the order of their keys.
    fn under() -> &'static str
        ensures { IsQuery Self.schema Self.form result.now A.codec is_under };
}

/// A table from which the rows under a part of their keys are removed.
pub trait Removed<A: Columned>: OfficeTable {
    /// Whether a key is under a value.
    ghost is_removed: { A → Self.Key → Bool };

    /// The statement that removes the rows whose keys are under a value.
    fn removal() -> &'static str
        ensures { IsRemoval Self.schema Self.form result.now A.codec is_removed };
}
