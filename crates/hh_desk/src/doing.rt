//! Files that are loaded, and runs that are made.

ghost use Rattle.std.specs.Prelude.{◌≡◌, ℕ, List, Some, None, take, IfOk, IsErrOf};
ghost use Rattle.hh_http_serve.specs.Refusals.{CountsUp, HasRefused};
ghost use Rattle.hh_http_serve.specs.Views.{IsSure};
ghost use Rattle.hh_script.specs.Steps.{load_of, run_of};
ghost use Rattle.hh_desk.specs.Crashes.{LoadLeaves, RunLeaves};
ghost use Rattle.hh_desk.specs.Doing.{LeavesRefused, OrdersRun, RunsLoad, request_for, request_of};

use crate::told::Told;
use hh_host::Host;
use hh_http_serve::{Office, Tables};
use hh_inputs::InputFault;
use hh_requests::{Action, Bytes, Request, Upload};
use hh_rows::FileBody;
use hh_script::{LoadLine, RunLine};
use hh_texts::MOST_BYTES;
use std::alloc::{AllocError, Global};

/// The most bytes that are read of a file: one more than is allowed. So a file that is too large is
/// noticed, and reading ends even if the file is endless.
const MOST_READ: usize = MOST_BYTES + 1;

/// Makes a run at its moment (profile), and returns what came of it: the machine's reply, or a reply that
/// gives up with 90 if memory was refused, or with 91 if the store refused. A refusal leaves the office as
/// it is.
pub fn make_run<T: Tables>(alloc: Global, office: &mut Office<'_, T>, line: &RunLine<'_>) -> Told
    ensures runs { IsSure T.is_open office.new
        → OrdersRun (HasRefused T.refusals office.old office.new)
        office.old.seen office.new.seen (run_of line.now) result }
    ensures untouched { IsSure T.is_open office.new
        → LeavesRefused office.old.seen office.new.seen result }
    ensures refusals_up { IsSure T.is_open office.new → CountsUp T.refusals office.old office.new }
    ensures sure { IsSure T.is_open office.new → IsSure T.is_open office.old }
    ensures left { RunLeaves T.is_honest T.is_open T.may_leave T.holds
        office.old office.new (run_of line.now) result }
    ensures honest { T.is_honest office.new.tables → T.is_honest office.old.tables }
{
    match run_request(alloc, line) {
        Ok(request) => Told::Replied(office.handle(line.moment, &request)),
        Err(AllocError) => Told::no_memory(),
    }
}

/// What a run asks of the office.
fn run_request(alloc: Global, line: &RunLine<'_>) -> Result<Request, AllocError>
    ensures { IfOk result (λ request. request ≡ request_for (run_of line.now)) }
{
    let key = Vec::from_slice(alloc, line.key)?;
    Ok(Request {
        key: Bytes::new(key),
        action: Action::Run(line.run),
    })
}

/// Loads a file at a moment, under the name that its path ends in (profile), and returns what came of it.
/// That is that the file cannot be read, or the machine's reply, or a reply that gives up with 90 if memory
/// was refused, or with 91 if the store refused. A refusal leaves the office as it is.
pub fn load_file<T: Tables, H: Host>(
    alloc: Global,
    office: &mut Office<'_, T>,
    host: &H,
    load: &LoadLine<'_>,
) -> Told
    ensures runs { IsSure T.is_open office.new
        → RunsLoad (HasRefused T.refusals office.old office.new)
        office.old.seen office.new.seen (H.view host.now) (load_of load.now) result }
    ensures untouched { IsSure T.is_open office.new
        → LeavesRefused office.old.seen office.new.seen result }
    ensures refusals_up { IsSure T.is_open office.new → CountsUp T.refusals office.old office.new }
    ensures sure { IsSure T.is_open office.new → IsSure T.is_open office.old }
    ensures left { LoadLeaves T.is_honest T.is_open T.may_leave T.holds
        office.old office.new (H.view host.now) (load_of load.now) result }
    ensures honest { T.is_honest office.new.tables → T.is_honest office.old.tables }
{
    match read_request(alloc, host, load) {
        Ok(request) => Told::Replied(office.handle(load.moment, &request)),
        Err(InputFault::Unreadable) => Told::Unreadable,
        Err(InputFault::Memory) => Told::no_memory(),
    }
}

/// What a load asks of the office. At most `MOST_READ` bytes of its file are read, which is enough to
/// notice a file that is too large.
fn read_request<H: Host>(
    alloc: Global,
    host: &H,
    load: &LoadLine<'_>,
) -> Result<Request, InputFault>
    ensures request { IfOk result (λ request. (all : List ℕ)
        × (H.view host.now).reads load.now.path.now (Some all)
        × (request ≡ request_of (load_of load.now) (take MOST_READ all))) }
    ensures unreadable { IsErrOf result InputFault.Unreadable
        → (H.view host.now).reads load.now.path.now None }
{
    let body = host.read(alloc, load.path, MOST_READ)?;
    let key = Vec::from_slice(alloc, load.key)?;
    Ok(Request {
        key: Bytes::new(key),
        action: Action::Load(Upload {
            kind: load.kind,
            name: load.name,
            body: FileBody::new(alloc, body)?,
        }),
    })
}
