//! The routes of the office, and which of them a path has.

ghost use Rattle.std.specs.Prelude.{◌≡◌, Some, IfErr, IfOk, IfSome};
ghost use Rattle.hh_wire.specs.steps.Paths.{BeginsWith, IsPathOf};
ghost use Rattle.hh_wire.specs.steps.RouteRows.{rows};

use matchit::{InsertError, Router};
use std::alloc::{AllocError, Global};
use std::marker::Model;
use std::str;

/// What a path names.
#[derive(Clone, Copy, Debug)]
pub(crate) enum Route {
    /// A file that is sent.
    Files,
    /// A run of a date and kind.
    Runs,
    /// An account on a date.
    Accounts,
    /// The balance of an account.
    Balances,
    /// The contracts of an account on a date.
    Contracts,
    /// The runs of a date.
    RunsOfDate,
}

/// The routes of the office. A server keeps them from one request to the next. They are made for the first
/// request that needs them.
#[derive(Drop)]
pub struct Routes {
    router: Option<Router<Route>>,
}

impl Model for Routes {
    ghost use Rattle.std.specs.Prelude.{◌≡◌, IfSome};
    ghost use Rattle.hh_wire.specs.steps.RouteRows.{rows};

    ghost Value = { Unit {0} };

    ghost view = { λ _. tt };

    ghost invariant = { λ r. IfSome r.router (λ router. router ≡ rows) };
}

impl Routes {
    /// The routes, not made yet. That takes no memory.
    pub fn new() -> Routes {
        Routes { router: None }
    }

    /// Takes the router out, and makes it first if it isn't made yet. `Err` only if memory is refused.
    pub(crate) fn take(&mut self, alloc: Global) -> Result<Router<Route>, AllocError>
        ensures { IfOk result (λ router. router ≡ rows) }
    {
        match self.router.take() {
            Some(router) => Ok(router),
            None => office_router(alloc),
        }
    }

    /// Puts the router back.
    pub(crate) fn put_back(&mut self, router: Router<Route>)
        requires { router ≡ rows }
    {
        self.router = Some(router);
    }
}

/// The route of a path, if it has one. It is looked up in the router of the office.
pub(crate) fn route_at(router: &Router<Route>, target: &[u8]) -> Option<Route>
    requires { router.now ≡ rows }
    ensures known { (route : Route) → IsPathOf route target.now → result ≡ Some route }
    ensures begins { IfSome result (λ route. BeginsWith route target.now) }
{
    let Ok(path) = str::from_utf8(target) else {
        return None;
    };
    match router.at(path) {
        Ok(found) => Some(*found.value),
        Err(_) => None,
    }
}

/// A router with the routes of the office.
fn office_router(alloc: Global) -> Result<Router<Route>, AllocError>
    ensures { IfOk result (λ router. router ≡ rows) }
{
    // No route is ill-formed or conflicts with another, so only memory can be refused.
    match build_router(alloc) {
        Ok(router) => Ok(router),
        Err(_) => Err(AllocError),
    }
}

/// Builds the router, or tells its error.
fn build_router(alloc: Global) -> Result<Router<Route>, InsertError>
    ensures rows { IfOk result (λ router. router ≡ rows) }
    ensures memory { IfErr result (λ error. error ≡ InsertError.OutOfMemory) }
{
    let mut router = Router::new(alloc);
    router.insert("/files/{kind}/{name}", Route::Files)?;
    router.insert("/runs/{date}/{kind}", Route::Runs)?;
    router.insert("/accounts/{account}/{date}", Route::Accounts)?;
    router.insert("/balances/{account}", Route::Balances)?;
    router.insert("/contracts/{account}/{date}", Route::Contracts)?;
    router.insert("/runs/{date}", Route::RunsOfDate)?;
    Ok(router)
}
