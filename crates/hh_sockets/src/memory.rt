//! Connections in memory, for tests.

ghost use Rattle.std.specs.Prelude.{◌≡◌, Some};
ghost use Rattle.hh_sockets.specs.Arrivals.{TakesBack};

use crate::loopback::{Connection, Listener, Loopback, Received, SocketFailed};
use hh_devices::{MemorySink, MemorySource};
use std::alloc::Global;
use std::cell::RefCell;

/// A port, and the bytes that its clients send: one connection for each, one after the other.
#[derive(Clone, Copy)]
pub struct MemoryPort<'a> {
    pub port: u16,
    pub connections: &'a [&'a [u8]],
}

/// Ports in memory. Each time that a port is listened on, the same connections come.
#[derive(Clone, Copy)]
pub struct MemoryLoopback<'a> {
    pub alloc: Global,
    pub ports: &'a [MemoryPort<'a>],
    /// How many bytes are taken for the output of each connection.
    pub room: usize,
    /// What was written: a sink for each connection that was taken back.
    pub replies: &'a RefCell<Vec<MemorySink>>,
}

/// A listener on a port in memory.
#[derive(Drop)]
pub struct MemoryListener<'a> {
    alloc: Global,
    port: u16,
    connections: &'a [&'a [u8]],
    room: usize,
    replies: &'a RefCell<Vec<MemorySink>>,
}

impl<'a> Loopback for MemoryLoopback<'a> {
    ghost use Rattle.hh_sockets.specs.Memory.{memory_ports};

    type Listener = MemoryListener<'a>;

    ghost ports = { memory_ports };

    fn listen(&self, port: u16) -> Result<MemoryListener<'a>, SocketFailed> {
        for entry in self.ports.iter() {
            if entry.port != 0 && (port == 0 || entry.port == port) {
                return Ok(MemoryListener {
                    alloc: self.alloc,
                    port: entry.port,
                    connections: entry.connections,
                    room: self.room,
                    replies: self.replies,
                });
            }
        }
        Err(SocketFailed)
    }
}

impl<'a> Listener for MemoryListener<'a> {
    ghost use Rattle.hh_devices.specs.MemorySink.{sink_failures, taken_by};
    ghost use Rattle.hh_devices.specs.MemorySource.{left_in, source_failures};
    ghost use Rattle.hh_sockets.specs.Memory.{memory_leads};

    type Source = MemorySource<'a>;

    type Sink = MemorySink;

    ghost port_of = { λ l. l.port };

    ghost leads = { memory_leads };

    fn port(&self) -> u16 {
        self.port
    }

    /// Hands over the next connection. It fails if there is none, or if memory is refused for its output.
    fn accept(&mut self) -> Result<Connection<MemorySource<'a>, MemorySink>, SocketFailed> {
        let connections = self.connections;
        if connections.is_empty() {
            return Err(SocketFailed);
        }
        let Ok(sink) = MemorySink::with_room(self.alloc, self.room) else {
            return Err(SocketFailed);
        };
        self.connections = &connections[1..];
        Ok(Connection {
            source: MemorySource::new(connections[0]),
            sink,
        })
    }

    /// Keeps what was written, if there is memory for it.
    fn close(&mut self, connection: Connection<MemorySource<'a>, MemorySink>, _received: Received)
        ensures { TakesBack (λ source. Some (left_in source)) source_failures
            (λ sink. Some (taken_by sink)) sink_failures memory_leads self.old self.new
            connection.entry }
    {
        if let Ok(mut replies) = self.replies.try_borrow_mut() {
            let _ = replies.push(connection.sink);
        }
    }
}
