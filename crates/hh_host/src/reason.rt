//! Why the system refuses a file or a port, in its own words.

use std::alloc::{AllocError, Global};
use std::io::Read;
use std::net::{Ipv4Addr, Net, OpenListener, TcpListener};
use std::rt::Files;
use std::{fs, io};

/// Opens the file at a path, and reads a byte of it: a folder can be opened, but not read. A pipe or a
/// device is not opened, because that may wait for another process.
pub(crate) fn try_file<R: Files>(files: &R, path: &str) -> io::Result<()> {
    let found = fs::metadata(files, path)?;
    if !found.is_file() && !found.is_dir() {
        return Ok(());
    }
    let mut file = fs::open(files, path)?;
    let mut byte = [0u8; 1];
    file.read(&mut byte)?;
    Ok(())
}

/// Listens on a port of the loopback interface, until it is known whether that can be done.
pub(crate) fn try_port<R: Net>(net: &R, port: u16) -> io::Result<()> {
    TcpListener::bind(net, (Ipv4Addr::LOCALHOST, port))?.local_addr()?;
    Ok(())
}

/// The words of a failure, with the number of the system's error if it has one. It is `None` if nothing
/// failed.
pub(crate) fn words_of(
    alloc: Global,
    outcome: io::Result<()>,
) -> Result<Option<String>, AllocError> {
    match outcome {
        Ok(()) => Ok(None),
        Err(error) => Ok(Some(error.to_string(alloc)?)),
    }
}
