//! What a request asks, and by whose credentials.

ghost use Rattle.std.specs.Prelude.{◌≡◌};
ghost use Rattle.sv_requests.specs.Asked.{IsAsked, Joins, problem_of_auth, problem_of_route};

use hw_auth::{AuthFault, Credentials, credentials};
use hw_replies::Problem;
use hw_routes::{Call, RouteFault, Routes, route};
use hw_wire::Request;
use std::alloc::Global;

/// A call, with the credentials of who makes it.
#[derive(Debug, Drop)]
pub struct Asked {
    pub call: Call,
    pub credentials: Credentials,
}

/// What a request asks. What is wrong with its route comes before what is wrong with its credentials.
pub fn asked_by(alloc: Global, routes: &Routes, request: &Request) -> Result<Asked, Problem>
    ensures { IsAsked request.now result }
{
    let found = credentials(alloc, request.authorization.as_deref());
    match route(
        alloc,
        routes,
        &request.method,
        &request.target,
        &request.body,
    ) {
        Ok(call) => joined(call, found),
        Err(fault) => Err(problem_of_route(fault)),
    }
}

fn joined(call: Call, found: Result<Credentials, AuthFault>) -> Result<Asked, Problem>
    ensures { Joins call found result }
{
    match found {
        Ok(credentials) => Ok(Asked { call, credentials }),
        Err(fault) => Err(problem_of_auth(fault)),
    }
}

fn problem_of_route(fault: RouteFault) -> Problem
    ensures { result ≡ problem_of_route fault }
{
    match fault {
        RouteFault::NoRoute => Problem::NoRoute,
        RouteFault::BadMethod(path) => Problem::BadMethod(path),
        RouteFault::Missing(param) => Problem::Missing(param),
        RouteFault::BadValue(param) => Problem::BadValue(param),
        RouteFault::NoMemory => Problem::NoMemory,
    }
}

fn problem_of_auth(fault: AuthFault) -> Problem
    ensures { result ≡ problem_of_auth fault }
{
    match fault {
        AuthFault::NoHeader | AuthFault::BadHeader => Problem::NotLoggedIn,
        AuthFault::NoMemory => Problem::NoMemory,
    }
}
