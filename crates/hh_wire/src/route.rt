//! What paths ask for.

ghost use Rattle.std.specs.Prelude.{◌≡◌, ◌<◌, ◌==◌, [], ◌∷◌, length, position, IfNone, IfSome};
ghost use Rattle.hh_wire.specs.steps.Paths.{action_of, one_part_of, two_parts_of};
ghost use Rattle.hh_wire.specs.steps.RouteRows.{rows};
ghost use Rattle.hh_wire.specs.Routes.{action_at, method_of, parts_of};

use crate::router::{Route, route_at};
use hh_names::{Account, FileName};
use hh_requests::{Action, Upload};
use hh_rows::{FileBody, FileKind};
use hh_runs::{RunKey, RunKind};
use hh_time::SettlementDate;
use http::Method;
use matchit::Router;

/// What a path asks for with a body (profile). It is `None` if there is no such path, or if a part of it
/// can't be read. Only a file that is sent uses the body.
pub(crate) fn action_at(router: &Router<Route>, target: &[u8], body: FileBody) -> Option<Action>
    requires { router.now ≡ rows }
    ensures { result ≡ action_at (parts_of target.now) body }
{
    match route_at(router, target) {
        Some(route) => action_of(route, target, body),
        None => None,
    }
}

/// What a path with this route asks for with a body, or `None` if a part of it can't be read.
fn action_of(route: Route, target: &[u8], body: FileBody) -> Option<Action>
    ensures { result ≡ action_of route (parts_of target.now) body }
{
    let (_, path) = split_part(target)?;
    let (_, parts) = split_part(path)?;
    match split_part(parts) {
        Some((first, second)) => two_parts(route, first, only_part(second)?, body),
        None => one_part(route, parts),
    }
}

/// The method of a path with this action (profile).
pub(crate) fn method_of(action: &Action) -> Method
    ensures { result ≡ method_of action.now }
{
    match action {
        Action::Load(_) | Action::Run(_) => Method::POST,
        Action::Account { .. }
        | Action::Balance { .. }
        | Action::Contracts { .. }
        | Action::Runs { .. } => Method::GET,
    }
}

/// What the only part of a path with this route asks for.
fn one_part(route: Route, part: &[u8]) -> Option<Action>
    ensures { result ≡ one_part_of route part.now }
{
    match route {
        Route::Balances => Some(Action::Balance {
            account: Account::read(part)?,
        }),
        Route::RunsOfDate => Some(Action::Runs {
            date: SettlementDate::read(part)?,
        }),
        Route::Files | Route::Runs | Route::Accounts | Route::Contracts => None,
    }
}

/// What the two parts of a path with this route ask for.
fn two_parts(route: Route, first: &[u8], second: &[u8], body: FileBody) -> Option<Action>
    ensures { result ≡ two_parts_of route first.now second.now body }
{
    match route {
        Route::Files => Some(Action::Load(Upload {
            kind: FileKind::read(first)?,
            name: FileName::read(second)?,
            body,
        })),
        Route::Runs => Some(Action::Run(RunKey {
            date: SettlementDate::read(first)?,
            kind: RunKind::read(second)?,
        })),
        Route::Accounts => Some(Action::Account {
            account: Account::read(first)?,
            date: SettlementDate::read(second)?,
        }),
        Route::Contracts => Some(Action::Contracts {
            account: Account::read(first)?,
            date: SettlementDate::read(second)?,
        }),
        Route::Balances | Route::RunsOfDate => None,
    }
}

/// The first part of a path and what follows the slash after it, or `None` if there is only one part.
fn split_part(path: &[u8]) -> Option<(&[u8], &[u8])>
    ensures several { IfSome result (λ parts.
        parts_of path.now ≡ parts.0.now ∷ parts_of parts.1.now) }
    ensures single { IfNone result (parts_of path.now ≡ path.now ∷ []) }
{
    let end = first_slash(path)?;
    Some((&path[..end], &path[end + 1..]))
}

/// The place of the first slash of a path.
fn first_slash(path: &[u8]) -> Option<usize>
    ensures { result ≡ position (λ b. b == 47) path.now }
{
    path.iter().position(|byte| *byte == b'/')
}

/// The only part of a path, or `None` if it has several.
fn only_part(path: &[u8]) -> Option<&[u8]>
    ensures single { IfSome result (λ part. parts_of path.now ≡ part.now ∷ []) }
    ensures several { IfNone result (1 < length (parts_of path.now)) }
{
    match split_part(path) {
        Some(_) => None,
        None => Some(path),
    }
}
