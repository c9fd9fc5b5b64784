//! The routes, as matchit keeps them.
ghost use Rattle.std.specs.Prelude.{◌≡◌, IfErr, IfOk};
ghost use Rattle.dip_http_messages.specs.Table.{table};

use matchit::{InsertError, Router};
use std::alloc::{AllocError, Global};

/// The routes of the service. What their parameters take of a path is a game's name and a paper's number, whether or not there is such a game
/// or paper.
#[derive(Clone, Copy, Debug, PartialEq, Eq)]
pub enum Route {
    /// `/letters`, where letters are handed in.
    Letters,
    /// `/games/{game}`: a game, by its name.
    Game,
    /// `/games/{game}/papers/{number}`: a paper, by the name of its game and its number.
    Paper,
}

/// The routes of the service as a router has them, made once for all connections.
#[derive(Drop)]
pub struct Routes {
    pub(crate) router: Router<Route>,
    ghost made: { router ≡ table },
}

impl Routes {
    /// The routes. The only error is want of memory.
    pub fn new(alloc: Global) -> Result<Routes, AllocError>
        ensures { IfOk result (λ routes. routes.router ≡ table) }
    {
        match router_of(alloc) {
            Ok(router) => Ok(Routes { router }),
            Err(_) => Err(AllocError),
        }
    }
}

/// The router. There is no other error than want of memory, since no two routes are in conflict.
fn router_of(alloc: Global) -> Result<Router<Route>, InsertError>
    ensures ok { IfOk result (λ router. router ≡ table) }
    ensures err { IfErr result (λ e. e ≡ InsertError.OutOfMemory) }
{
    let mut router = Router::new(alloc);
    router.insert("/letters", Route::Letters)?;
    router.insert("/games/{game}", Route::Game)?;
    router.insert("/games/{game}/papers/{number}", Route::Paper)?;
    Ok(router)
}
