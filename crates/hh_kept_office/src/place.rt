//! The places where databases are.

ghost use Rattle.std.specs.Prelude.{Bool, false, true, ℕ, List, IfErr, IfOk};
ghost use Rattle.hh_store.specs.declared.store_fault.StoreFault.{StoreFault};

use hh_host::Host;
use hh_store::StoreFault;
use std::alloc::Global;

/// A host with databases at paths.
pub trait DatabaseHost: Host {
    type Connection;

    /// Whether something may be found at a path.
    ghost finds: { Self → List ℕ → Bool → Type 0 };

    /// Which faults there may be when a path is looked at, or a database is made or opened there.
    ghost refuses: { Self → List ℕ → StoreFault → Type 0 };

    /// Which connections may come from making or opening a database at a path.
    ghost opens: { Self → List ℕ → Self.Connection → Type 0 };

    /// Which connections may have been closed at a path.
    ghost closes: { Self → List ℕ → Self.Connection → Type 0 };

    /// Which connections may have been closed at a path from which the database was then removed.
    ghost discards: { Self → List ℕ → Self.Connection → Type 0 };

    /// Whether there is anything at a path.
    ///
    /// # Errors
    ///
    /// `Memory`: memory was refused. `Store`: the path can't be looked at.
    fn exists(&self, path: &str) -> Result<bool, StoreFault>
        ensures found { IfOk result (finds self.now path.now) }
        ensures refused { IfErr result (refuses self.now path.now) };

    /// Makes an empty database at a path where nothing was found.
    ///
    /// # Errors
    ///
    /// `Memory`: memory was refused. `Store`: no database can be made. In both cases nothing is at the
    /// path.
    fn make(&self, path: &str) -> Result<Self::Connection, StoreFault>
        requires { finds self.now path.now false }
        ensures opened { IfOk result (opens self.now path.now) }
        ensures refused { IfErr result (refuses self.now path.now) };

    /// Opens the database at a path where something was found.
    ///
    /// # Errors
    ///
    /// `Memory`: memory was refused. `Store`: there is no database that can be opened.
    fn open(&self, path: &str) -> Result<Self::Connection, StoreFault>
        requires { finds self.now path.now true }
        ensures opened { IfOk result (opens self.now path.now) }
        ensures refused { IfErr result (refuses self.now path.now) };

    /// Closes a database that was made or opened at a path. What was committed is kept, even if closing
    /// fails.
    fn close(&self, path: &str, connection: Self::Connection)
        ensures { closes self.now path.now connection };

    /// Closes a database that was made at a path, and removes it. If it can't be removed, an empty file is
    /// left.
    fn discard(&self, path: &str, connection: Self::Connection)
        ensures { discards self.now path.now connection };

    /// The first `most` bytes of the file at a path, or all of them if it has fewer. It is `None` if the
    /// file can't be read more than once, as a pipe or a terminal, which may wait for ever, and if memory
    /// is refused. No contract knows the bytes.
    fn read_again(&self, alloc: Global, path: &str, most: usize) -> Option<Vec<u8>>;
}
