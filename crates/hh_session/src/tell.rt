//! How it is told what came of the lines of a script.

ghost use Rattle.std.specs.Prelude.{◌≡◌, IfOk, OnErr, OnOk, false};
ghost use Rattle.std.specs.Io.KnownBytes.{Appends};
ghost use Rattle.hh_devices.specs.DeviceChanges.{change};
ghost use Rattle.hh_devices.specs.Devices.{AppendsFront, Failed};
ghost use Rattle.hh_requests.specs.declared.reply.Reply.TheVariants.{Refused};
ghost use Rattle.hh_desk.specs.declared.told.Told.TheVariants.{Replied};
ghost use Rattle.hh_desk.specs.Doing.{no_memory};
ghost use Rattle.hh_session.specs.Came.{was_done};
ghost use Rattle.hh_session.specs.Lines.{told_done, told_line};
ghost use Rattle.hh_session.specs.steps.Course.{BeginsLine, TellsLine};

use crate::notes::Came;
use hh_desk::{Told, loaded_line, run_line};
use hh_devices::{DeviceFailed, Sink, write_whole};
use hh_names::Fault;
use hh_requests::Reply;
use std::alloc::{AllocError, Global};

/// Tells what came of a line, and answers it. Only the line of a refusal takes memory. If that memory is
/// refused, the line of refused memory is told instead.
pub(crate) fn tell<O: Sink>(alloc: Global, told: &Told, out: &mut O) -> Result<Came, DeviceFailed>
    ensures told { OnOk result (TellsLine (change O.taken O.failures out.old out.new) told.now) }
    ensures came { IfOk result (λ came. was_done came ≡ told_done told.now) }
    ensures well { OnOk result (O.failures out.new ≡ O.failures out.old) }
    ensures cut { OnErr result (BeginsLine (change O.taken O.failures out.old out.new) told.now) }
    ensures failed { OnErr result (Failed (O.failures out.old) (O.failures out.new)) }
{
    write_told(alloc, told, out)?;
    Ok(Came::of(told))
}

/// Writes what came of a line. Only the line of a refusal takes memory. If that memory is refused, the line
/// of refused memory is written instead.
fn write_told<O: Sink>(alloc: Global, told: &Told, out: &mut O) -> Result<(), DeviceFailed>
    ensures told { OnOk result (TellsLine (change O.taken O.failures out.old out.new) told.now) }
    ensures well { OnOk result (O.failures out.new ≡ O.failures out.old) }
    ensures cut { OnErr result (BeginsLine (change O.taken O.failures out.old out.new) told.now) }
    ensures failed { OnErr result (Failed (O.failures out.old) (O.failures out.new)) }
{
    match told {
        Told::Replied(reply) => write_reply(alloc, reply, out),
        Told::Unreadable => write_whole(out, b"fault file\n"),
    }
}

/// Writes a reply, as `write_told` does.
fn write_reply<O: Sink>(alloc: Global, reply: &Reply, out: &mut O) -> Result<(), DeviceFailed>
    ensures told { OnOk result (TellsLine (change O.taken O.failures out.old out.new)
        (Replied reply.now)) }
    ensures well { OnOk result (O.failures out.new ≡ O.failures out.old) }
    ensures cut { OnErr result (BeginsLine (change O.taken O.failures out.old out.new)
        (Replied reply.now)) }
    ensures failed { OnErr result (Failed (O.failures out.old) (O.failures out.new)) }
{
    match reply {
        Reply::Loaded(loaded) => write_whole(out, &loaded_line(*loaded)),
        Reply::Ran { run, summary } => write_whole(out, &run_line(run, summary)),
        Reply::Refused(fault) => write_refusal(alloc, fault, out),
        Reply::Account(_) | Reply::Balance { .. } | Reply::Contracts(_) | Reply::Runs(_) => {
            write_whole(out, b"")
        }
    }
}

/// Tells a refusal, or refused memory if memory is refused for the refusal's line. Answers what came of it.
pub(crate) fn tell_refused<O: Sink>(
    alloc: Global,
    fault: Fault,
    out: &mut O,
) -> Result<Came, DeviceFailed>
    ensures told { OnOk result (TellsLine (change O.taken O.failures out.old out.new)
        (Replied (Refused fault))) }
    ensures came { IfOk result (λ came. was_done came ≡ false) }
    ensures well { OnOk result (O.failures out.new ≡ O.failures out.old) }
    ensures cut { OnErr result (BeginsLine (change O.taken O.failures out.old out.new)
        (Replied (Refused fault))) }
    ensures failed { OnErr result (Failed (O.failures out.old) (O.failures out.new)) }
{
    write_refusal(alloc, &fault, out)?;
    Ok(Came::Refused(fault))
}

/// Writes a refusal, or refused memory if memory is refused for the refusal's line.
fn write_refusal<O: Sink>(alloc: Global, fault: &Fault, out: &mut O) -> Result<(), DeviceFailed>
    ensures told { OnOk result (TellsLine (change O.taken O.failures out.old out.new)
        (Replied (Refused fault.now))) }
    ensures well { OnOk result (O.failures out.new ≡ O.failures out.old) }
    ensures cut { OnErr result (BeginsLine (change O.taken O.failures out.old out.new)
        (Replied (Refused fault.now))) }
    ensures failed { OnErr result (Failed (O.failures out.old) (O.failures out.new)) }
{
    match format!(in alloc; "{fault}\n") {
        Ok(line) => write_whole(out, line.as_bytes()),
        Err(AllocError) => write_no_memory(out),
    }
}

/// Writes that memory was refused. Takes no memory.
fn write_no_memory<O: Sink>(out: &mut O) -> Result<(), DeviceFailed>
    ensures told { OnOk result (Appends (O.taken out.old) (O.taken out.new)
        (told_line no_memory)) }
    ensures well { OnOk result (O.failures out.new ≡ O.failures out.old) }
    ensures cut { OnErr result (AppendsFront (O.taken out.old) (O.taken out.new)
        (told_line no_memory)) }
    ensures failed { OnErr result (Failed (O.failures out.old) (O.failures out.new)) }
{
    write_whole(out, b"refused 90 Memory\n")
}
