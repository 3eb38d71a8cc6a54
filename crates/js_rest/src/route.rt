//! The table of routes.
ghost use Rattle.std.specs.Prelude.{◌≡◌, OnOk, IfOk, [], option_map};
ghost use Rattle.std.specs.Option.{option_copied};
ghost use Rattle.matchit.specs.Seek.{first};
ghost use Rattle.std.specs.Prelude.{Some, None, codes};
ghost use Rattle.js_rest.specs.Routes as spec;
ghost use Rattle.js_rest.specs.Routes.{route_of};

use matchit::{InsertError, Router};
use std::alloc::Global;

/// What a path is about.
#[derive(Clone, Copy, Debug, PartialEq, Eq)]
pub enum Route {
    Page,
    Version,
    Shutdown,
    Kernelspecs,
    Kernels,
    Kernel,
    Interrupt,
    Restart,
    Channels,
    Sessions,
    Session,
    Contents,
}

fn add(router: &mut Router<Route>, path: &str, route: Route) -> Result<(), InsertError>
    ensures { OnOk result (router.new ≡ spec.with_route path.now route router.old) }
{
    router.insert(path, route)
}

/// The table of routes.
#[tactic(auto, unfolding(crate::specs::Routes::table))]
pub(crate) fn routes(alloc: Global) -> Result<Router<Route>, InsertError>
    ensures { IfOk result (λ router. router ≡ spec.table) }
{
    let mut router = Router::new(alloc);
    add(&mut router, "/", Route::Page)?;
    add(&mut router, "/api", Route::Version)?;
    add(&mut router, "/api/shutdown", Route::Shutdown)?;
    add(&mut router, "/api/kernelspecs", Route::Kernelspecs)?;
    add(&mut router, "/api/kernels", Route::Kernels)?;
    add(&mut router, "/api/kernels/{id}", Route::Kernel)?;
    add(&mut router, "/api/kernels/{id}/interrupt", Route::Interrupt)?;
    add(&mut router, "/api/kernels/{id}/restart", Route::Restart)?;
    add(&mut router, "/api/kernels/{id}/channels", Route::Channels)?;
    add(&mut router, "/api/sessions", Route::Sessions)?;
    add(&mut router, "/api/sessions/{id}", Route::Session)?;
    add(&mut router, "/api/contents", Route::Contents)?;
    add(&mut router, "/api/contents/", Route::Contents)?;
    add(&mut router, "/api/contents/{*path}", Route::Contents)?;
    Ok(router)
}

/// The route of a path.
pub(crate) fn find(router: &Router<Route>, path: &str) -> Option<Route>
    ensures { result ≡ spec.value_of (first router.now path.now) }
{
    match router.at(path) {
        Ok(found) => Some(*found.value),
        Err(_) => None,
    }
}

/// A law: what some paths are about.
pub fn routes_law()
    ensures page { route_of (codes "/") ≡ Some Route.Page }
    ensures version { route_of (codes "/api") ≡ Some Route.Version }
    ensures shutdown { route_of (codes "/api/shutdown") ≡ Some Route.Shutdown }
    ensures specs { route_of (codes "/api/kernelspecs") ≡ Some Route.Kernelspecs }
    ensures kernels { route_of (codes "/api/kernels") ≡ Some Route.Kernels }
    ensures kernel { route_of (codes "/api/kernels/x-1") ≡ Some Route.Kernel }
    ensures interrupt { route_of (codes "/api/kernels/x-1/interrupt") ≡ Some Route.Interrupt }
    ensures restart { route_of (codes "/api/kernels/x-1/restart") ≡ Some Route.Restart }
    ensures channels { route_of (codes "/api/kernels/x-1/channels") ≡ Some Route.Channels }
    ensures sessions { route_of (codes "/api/sessions") ≡ Some Route.Sessions }
    ensures session { route_of (codes "/api/sessions/x-1") ≡ Some Route.Session }
    ensures root { route_of (codes "/api/contents/") ≡ Some Route.Contents }
    ensures below { route_of (codes "/api/contents/a/b%20c") ≡ Some Route.Contents }
    ensures nothing { route_of (codes "") ≡ None }
    ensures icon { route_of (codes "/favicon.ico") ≡ None }
    ensures none { route_of (codes "/api/kernels/") ≡ None }
    ensures other { route_of (codes "/api/kernels/x/y") ≡ None }
{}
