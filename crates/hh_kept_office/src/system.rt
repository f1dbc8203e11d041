//! The databases of the system.

ghost use Rattle.std.specs.Prelude.{⊤, IfErr, IfOk};

use crate::files::{connect, fault_of, has_log, is_file, is_no_database, make_file, remove};
use crate::place::DatabaseHost;
use hh_host::{ClockFailed, Host, RuntimeHost};
use hh_inputs::InputFault;
use hh_sockets::{RuntimeListener, SocketFailed};
use hh_store::StoreFault;
use sqlite::{Connection, FileStore};
use sqlite_std_file::File;
use std::alloc::{AllocError, Global};
use std::fs;
use std::io::ErrorKind;
use std::net::Net;
use std::rt::{Clock, Files};

/// This machine: its files, its ports and its clock, and the databases in its files.
#[derive(Clone, Copy)]
pub struct Machine<'a, R> {
    pub runtime: &'a R,
    pub databases: &'a HostRuntime,
}

impl<'a, R: Files + Net + Clock> Host for Machine<'a, R> {
    ghost use Rattle.hh_host.specs.Views.{any_view};

    type Listener = RuntimeListener<'a, R::Listener, R>;

    ghost view = { λ _. any_view };

    fn read(&self, alloc: Global, path: &str, most: usize) -> Result<Vec<u8>, InputFault> {
        RuntimeHost(self.runtime).read(alloc, path, most)
    }

    fn listen(&self, port: u16) -> Result<RuntimeListener<'a, R::Listener, R>, SocketFailed> {
        RuntimeHost(self.runtime).listen(port)
    }

    fn now(&self) -> Result<i64, ClockFailed> {
        RuntimeHost(self.runtime).now()
    }

    fn why_unreadable(&self, alloc: Global, path: &str) -> Result<Option<String>, AllocError> {
        RuntimeHost(self.runtime).why_unreadable(alloc, path)
    }

    fn why_not_listening(&self, alloc: Global, port: u16) -> Result<Option<String>, AllocError> {
        RuntimeHost(self.runtime).why_not_listening(alloc, port)
    }
}

/// No clause of std says what is opened at a path, so none does here.
impl<R: Files + Net + Clock> DatabaseHost for Machine<'_, R> {
    type Connection = Connection<FileStore<File>>;

    ghost finds = { λ _ _ _. ⊤ };

    ghost refuses = { λ _ _ _. ⊤ };

    ghost opens = { λ _ _ _. ⊤ };

    ghost closes = { λ _ _ _. ⊤ };

    ghost discards = { λ _ _ _. ⊤ };

    /// There is nothing at a path that leads through something which is no folder.
    fn exists(&self, path: &str) -> Result<bool, StoreFault>
        ensures found { IfOk result (λ _. ⊤) }
        ensures refused { IfErr result (λ _. ⊤) }
    {
        match fs::exists(self.databases, path) {
            Ok(found) => Ok(found),
            Err(error) if error.kind() == ErrorKind::NotADirectory => Ok(false),
            Err(error) => Err(fault_of(error)),
        }
    }

    /// Also `Store` if there is a log beside the path, as it belongs to another database.
    fn make(&self, path: &str) -> Result<Connection<FileStore<File>>, StoreFault>
        ensures opened { IfOk result (λ _. ⊤) }
        ensures refused { IfErr result (λ _. ⊤) }
    {
        if has_log(self.databases, path)? {
            return Err(StoreFault::Store);
        }
        make_file(self.databases, path)?;
        match connect(self.databases, path) {
            Ok(connection) => Ok(connection),
            Err(fault) => {
                remove(self.databases, path);
                Err(fault)
            }
        }
    }

    /// Also `Store` if the file is no database. It stays as it is.
    fn open(&self, path: &str) -> Result<Connection<FileStore<File>>, StoreFault>
        ensures opened { IfOk result (λ _. ⊤) }
        ensures refused { IfErr result (λ _. ⊤) }
    {
        if is_no_database(self.databases, path)? {
            return Err(StoreFault::Store);
        }
        connect(self.databases, path)
    }

    fn close(&self, _path: &str, connection: Connection<FileStore<File>>)
        ensures { ⊤ }
    {
        let _ = connection.close();
    }

    fn discard(&self, path: &str, connection: Connection<FileStore<File>>)
        ensures { ⊤ }
    {
        // While the connection is open, no other process has opened these files.
        remove(self.databases, path);
        let _ = connection.close();
    }

    fn read_again(&self, alloc: Global, path: &str, most: usize) -> Option<Vec<u8>> {
        if is_file(self.databases, path) {
            self.read(alloc, path, most).ok()
        } else {
            None
        }
    }
}
