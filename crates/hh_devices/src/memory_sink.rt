//! A sink in memory, for tests and for bytes that are not to leave the program.

ghost use Rattle.std.specs.Prelude.{◌≡◌, ◌≤◌, ◌+◌, ◌-◌, min, [], length, Some, None, IfOk, vec_capacity, vec_len};
ghost use Rattle.std.specs.Io.KnownBytes.{WriteAppends};
ghost use Rattle.hh_devices.specs.Devices.{Assures, Counts};
ghost use Rattle.hh_devices.specs.Pace.{any_pace, failing_after, in_pieces, moved, moved_count, paced};

use crate::device::DeviceFailed;
use crate::pace::Pace;
use crate::sink::Sink;
use std::alloc::{AllocError, Global};

/// A sink in memory. Its memory is taken beforehand, and its calls take none. A write past its room
/// takes nothing.
#[derive(Drop)]
pub struct MemorySink {
    taken: Vec<u8>,
    room: usize,
    pace: Pace,
    failures: u64,
    ghost allotted: { vec_len taken + room ≤ vec_capacity taken },
}

impl MemorySink {
    ghost use Rattle.hh_devices.specs.MemorySink.{taken_by, room_of, sink_pace, sink_failures};

    /// A sink with room for `room` bytes, which it takes in one call and with no failure.
    pub fn with_room(alloc: Global, room: usize) -> Result<MemorySink, AllocError>
        ensures taken { IfOk result (λ sink. taken_by sink ≡ []) }
        ensures room { IfOk result (λ sink. room_of sink ≡ room) }
        ensures pace { IfOk result (λ sink. sink_pace sink ≡ any_pace usize.MAX) }
        ensures failures { IfOk result (λ sink. sink_failures sink ≡ 0) }
    {
        Ok(MemorySink {
            taken: Vec::with_capacity(alloc, room)?,
            room,
            pace: Pace {
                piece: usize::MAX,
                until_failure: None,
            },
            failures: 0,
        })
    }

    /// This sink, taking at most `piece` bytes in a call from now on.
    pub fn in_pieces(mut self, piece: usize) -> MemorySink
        ensures taken { taken_by result ≡ taken_by self }
        ensures room { room_of result ≡ room_of self }
        ensures pace { sink_pace result ≡ in_pieces piece (sink_pace self) }
        ensures failures { sink_failures result ≡ sink_failures self }
    {
        self.pace.piece = piece;
        self
    }

    /// This sink, with one call that fails, once `count` more bytes were taken. Later calls go on.
    pub fn failing_after(mut self, count: usize) -> MemorySink
        ensures taken { taken_by result ≡ taken_by self }
        ensures room { room_of result ≡ room_of self }
        ensures pace { sink_pace result ≡ failing_after count (sink_pace self) }
        ensures failures { sink_failures result ≡ sink_failures self }
    {
        self.pace.until_failure = Some(count);
        self
    }

    /// The bytes that it took.
    pub fn taken(&self) -> &[u8]
        ensures { result.now ≡ taken_by self.now }
    {
        &self.taken
    }

    /// How many calls failed or took nothing, counted up to the largest `u64`.
    pub fn failures(&self) -> u64
        ensures { result ≡ sink_failures self.now }
    {
        self.failures
    }
}

impl Sink for MemorySink {
    ghost use Rattle.hh_devices.specs.MemorySink.{assured_of, offered_to, taken_by, room_of, sink_pace, sink_failures};

    ghost taken = { λ s. Some (taken_by s) };

    ghost failures = { sink_failures };

    ghost assured = { assured_of };

    fn write(&mut self, bytes: &[u8]) -> Result<usize, DeviceFailed>
        ensures count { IfOk result (λ n. n ≤ length bytes.now) }
        ensures bytes { WriteAppends (Some (taken_by self.old)) (Some (taken_by self.new))
            result bytes.now }
        ensures failures { Counts result (sink_failures self.old) (sink_failures self.new) }
        ensures assured { Assures result (assured_of self.old) (assured_of self.new)
            (length bytes.now) }

        // The answer does not depend on memory.
        ensures answer { result ≡ moved (sink_pace self.old) (offered_to self.old bytes.now) }
        ensures pace { sink_pace self.new
            ≡ paced (sink_pace self.old) (offered_to self.old bytes.now) }
        ensures room { room_of self.new ≡ room_of self.old - moved_count result }
    {
        let answer = self.pace.step(bytes.len().min(self.room));
        let count = answer.unwrap_or(0);
        if count == 0 {
            self.failures = self.failures.saturating_add(1);
            return answer;
        }
        let grown = self.taken.extend_from_slice(&bytes[..count]);
        prove!(grown.is_ok());
        self.room -= count;
        answer
    }
}
