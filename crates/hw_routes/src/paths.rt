//! The paths that have routes.

ghost use Rattle.std.specs.Prelude.{◌≡◌, IfOk, option_map};
ghost use Rattle.matchit.specs.Seek.{first};
ghost use Rattle.form_urlencoded.specs.Form.{split_once};
ghost use Rattle.hw_routes.specs.Paths.{allowed, behind_slash, id_piece, path_in, path_of, query_of, routes};

use matchit::{InsertError, Router};
use std::alloc::{AllocError, Global};
use std::marker::Model;

/// A path that has a route, with an id in it or without one.
#[derive(Clone, Copy, Debug, PartialEq, Eq)]
pub enum Path {
    Register,
    Events,
    Messages,
    MessageFlags,
    Message,
    MessageReactions,
    Users,
    User,
    UserReactivate,
    Subscriptions,
    SubscriptionProperties,
    Stream,
    Realm,
}

impl Path {
    /// The methods of the path, as the field `Allow` lists them.
    pub fn allowed(self) -> &'static str
        ensures { result.now ≡ allowed self }
    {
        match self {
            Path::Register
            | Path::Messages
            | Path::MessageFlags
            | Path::Users
            | Path::UserReactivate
            | Path::SubscriptionProperties => "POST",
            Path::Events => "GET, DELETE",
            Path::Message | Path::User | Path::Stream => "PATCH, DELETE",
            Path::MessageReactions | Path::Subscriptions => "POST, DELETE",
            Path::Realm => "PATCH",
        }
    }
}

/// The paths that have routes, for look-ups.
#[derive(Drop)]
pub struct Routes {
    router: Router<Path>,
}

impl Model for Routes {
    ghost use Rattle.std.specs.Prelude.{◌≡◌};
    ghost use Rattle.hw_routes.specs.Paths.{PathRoutes, routes};

    ghost Value = { PathRoutes };

    ghost view = { λ it. it.router };

    ghost invariant = { λ it. it.router ≡ routes };
}

impl Routes {
    /// All routes have their form and are apart from each other, so that memory alone is wanting.
    pub fn new(alloc: Global) -> Result<Routes, AllocError>
        ensures { IfOk result (λ it. it ≡ routes) }
    {
        match all_routes(alloc) {
            Ok(router) => Ok(Routes { router }),
            Err(_) => Err(AllocError),
        }
    }

    /// The path that these bytes are, which a target has before its first `?`.
    pub fn find(&self, path: &[u8]) -> Option<Path>
        ensures { result ≡ path_of path.now }
    {
        match str::from_utf8(path) {
            Ok(text) => value_at(&self.router, text),
            Err(_) => None,
        }
    }
}

// The path of the route that the text matches.
fn value_at(router: &Router<Path>, text: &str) -> Option<Path>
    ensures { result ≡ option_map (λ route. route.value) (first router.now text.now) }
{
    match router.at(text) {
        Ok(found) => Some(*found.value),
        Err(_) => None,
    }
}

fn all_routes(alloc: Global) -> Result<Router<Path>, InsertError>
    ensures { IfOk result (λ router. router ≡ routes) }
{
    let mut router = Router::new(alloc);
    router.insert("/api/v1/register", Path::Register)?;
    router.insert("/api/v1/events", Path::Events)?;
    router.insert("/api/v1/messages", Path::Messages)?;
    router.insert("/api/v1/messages/flags", Path::MessageFlags)?;
    router.insert("/api/v1/messages/{id}", Path::Message)?;
    router.insert("/api/v1/messages/{id}/reactions", Path::MessageReactions)?;
    router.insert("/api/v1/users", Path::Users)?;
    router.insert("/api/v1/users/{id}", Path::User)?;
    router.insert("/api/v1/users/{id}/reactivate", Path::UserReactivate)?;
    router.insert("/api/v1/users/me/subscriptions", Path::Subscriptions)?;
    router.insert(
        "/api/v1/users/me/subscriptions/properties",
        Path::SubscriptionProperties,
    )?;
    router.insert("/api/v1/streams/{id}", Path::Stream)?;
    router.insert("/api/v1/realm", Path::Realm)?;
    Ok(router)
}

/// What stands before the first separator, or all, and what behind it, or nothing.
fn split_once(bytes: &[u8], separator: u8) -> (&[u8], &[u8])
    ensures before { result.0.now ≡ (split_once separator bytes.now).0 }
    ensures behind { result.1.now ≡ (split_once separator bytes.now).1 }
{
    match bytes.iter().position(|byte| *byte == separator) {
        Some(at) => (&bytes[..at], &bytes[at + 1..]),
        None => (bytes, &[]),
    }
}

/// The path and the query of a target.
pub fn split_target(target: &[u8]) -> (&[u8], &[u8])
    ensures path { result.0.now ≡ path_in target.now }
    ensures query { result.1.now ≡ query_of target.now }
{
    split_once(target, b'?')
}

/// The piece of a path that an id is: `ID` in `/api/v1/users/ID/reactivate`.
#[tactic(auto, unfolding(crate::specs::Paths::id_piece))]
pub fn id_piece(path: &[u8]) -> &[u8]
    ensures { result.now ≡ id_piece path.now }
{
    let piece = behind_slash(behind_slash(behind_slash(behind_slash(path))));
    split_once(piece, b'/').0
}

fn behind_slash(path: &[u8]) -> &[u8]
    ensures { result.now ≡ behind_slash path.now }
{
    split_once(path, b'/').1
}
