//! Clients in memory whose reads or writes fail.

use crate::conversations::*;
use hh_http_serve::ServeFault;
use std::alloc::Global;

/// A request to an office in some state: what brings the office into the state, the request, and an enquiry
/// that tells whether it was handled, with the reply if it was not and the reply if it was.
#[derive(Clone, Copy)]
struct Scene<'a> {
    before: Conversation<'a>,
    request: Conversation<'a>,
    left: Conversation<'a>,
    done: Conversation<'a>,
}

/// Two files that are loaded, and an enquiry.
fn scenes() -> [Scene<'static>; 3] {
    [
        Scene {
            before: Conversation::of(BALANCE, FORBIDDEN),
            request: Conversation::of(LOAD, LOADED),
            left: Conversation::of(BALANCE, FORBIDDEN),
            done: Conversation::of(BALANCE, BALANCED),
        },
        Scene {
            before: Conversation::of(LOAD, LOADED),
            request: Conversation::of(CONTRACT, CONTRACTED),
            left: Conversation::of(CONTRACTS, NO_CONTRACT),
            done: Conversation::of(CONTRACTS, ONE_CONTRACT),
        },
        Scene {
            before: Conversation::of(LOAD, LOADED),
            request: Conversation::of(BALANCE, BALANCED),
            left: Conversation::of(BALANCE, BALANCED),
            done: Conversation::of(BALANCE, BALANCED),
        },
    ]
}

/// If a read fails after this many bytes of a request, that is told, nothing is written and nothing is done.
/// Answers whether this is so.
fn is_left(alloc: Global, scene: &Scene<'_>, piece: usize, read_fails: usize) -> bool {
    let failing = Conversation {
        piece,
        read_fails,
        served: Err(ServeFault::Read),
        failed_reads: 1,
        ..Conversation::of(scene.request.sends, b"")
    };
    all_come(alloc, &[scene.before, failing, scene.left])
}

/// Whether this is so if a read fails after any number of bytes.
fn is_always_left(alloc: Global, scene: &Scene<'_>) -> bool {
    for count in 0..scene.request.sends.len() {
        let left = is_left(alloc, scene, 1, count)
            && is_left(alloc, scene, 7, count)
            && is_left(alloc, scene, WHOLE, count);
        if !left {
            return false;
        }
    }
    true
}

#[test]
fn nothing_is_done_for_a_request_whose_read_fails(rt: HostRuntime) {
    for scene in &scenes() {
        assert!(rt; is_always_left(rt.alloc(), scene));
    }
}

/// A client has this much room, or a write to it fails after this many bytes. Its request is handled. The
/// failure is told, and a beginning of the reply is written. When the request comes again, it gets the same
/// reply and changes nothing. Answers whether this is so.
fn is_handled(alloc: Global, scene: &Scene<'_>, room: usize, write_fails: usize) -> bool {
    let reply = scene.request.gets;
    let failing = Conversation {
        piece: 7,
        write_fails,
        room,
        served: Err(ServeFault::Write),
        failed_writes: 1,
        gets: reply.get(..room.min(write_fails)).unwrap_or_default(),
        ..scene.request
    };
    all_come(
        alloc,
        &[scene.before, failing, scene.done, scene.request, scene.done],
    )
}

/// Whether this is so if a write fails after any number of bytes, or if a client has no more room. Such a
/// client takes nothing.
fn is_always_handled(alloc: Global, scene: &Scene<'_>) -> bool {
    for count in 0..scene.request.gets.len() {
        let handled = is_handled(alloc, scene, WHOLE, count)
            && is_handled(alloc, scene, count, WHOLE);
        if !handled {
            return false;
        }
    }
    true
}

#[test]
fn a_failed_write_is_told_and_the_request_may_come_again(rt: HostRuntime) {
    for scene in &scenes() {
        assert!(rt; is_always_handled(rt.alloc(), scene));
    }
}
