//! What the methods of each path do.

ghost use Rattle.std.specs.Prelude.{◌≡◌};
ghost use Rattle.hw_routes.specs.Actions.{action_in, action_of, actions_at, method_name};

use crate::paths::Path;

/// A method that has routes.
#[derive(Clone, Copy, Debug, PartialEq, Eq)]
pub enum Verb {
    Get,
    Post,
    Patch,
    Delete,
}

/// What a request does.
#[derive(Clone, Copy, Debug, PartialEq, Eq)]
pub enum Action {
    Queue(QueueAction),
    People(PeopleAction),
    Streams(StreamAction),
    Posts(PostAction),
    Marks(MarkAction),
}

#[derive(Clone, Copy, Debug, PartialEq, Eq)]
pub enum QueueAction {
    Register,
    Poll,
    Delete,
}

#[derive(Clone, Copy, Debug, PartialEq, Eq)]
pub enum PeopleAction {
    ChangeRealm,
    Add,
    Change,
    Deactivate,
    Reactivate,
}

#[derive(Clone, Copy, Debug, PartialEq, Eq)]
pub enum StreamAction {
    /// Subscribes to a stream, or creates one.
    Join,
    Leave,
    SetProperty,
    Change,
    Archive,
}

#[derive(Clone, Copy, Debug, PartialEq, Eq)]
pub enum PostAction {
    Send,
    /// Edits a message, or moves it.
    Change,
    Delete,
}

#[derive(Clone, Copy, Debug, PartialEq, Eq)]
pub enum MarkAction {
    ChangeFlags,
    AddReaction,
    RemoveReaction,
}

impl Verb {
    fn name(self) -> &'static str
        ensures { result.now ≡ method_name self }
    {
        match self {
            Verb::Get => "GET",
            Verb::Post => "POST",
            Verb::Patch => "PATCH",
            Verb::Delete => "DELETE",
        }
    }
}

/// What the method does at the path.
#[tactic(auto, unfolding(crate::specs::Actions::action_of))]
pub fn action_of(path: Path, method: &str) -> Option<Action>
    ensures { result ≡ action_of path method.now }
{
    action_in(actions_at(path), method)
}

fn action_in(rows: &[(Verb, Action)], method: &str) -> Option<Action>
    ensures { result ≡ action_in rows.now method.now }
{
    for row in rows {
        if row.0.name() == method {
            return Some(row.1);
        }
    }
    None
}

// The methods of a path, and what each does.
fn actions_at(path: Path) -> &'static [(Verb, Action)]
    ensures { result.now ≡ actions_at path }
{
    match path {
        Path::Register => &[(Verb::Post, Action::Queue(QueueAction::Register))],
        Path::Events => &[
            (Verb::Get, Action::Queue(QueueAction::Poll)),
            (Verb::Delete, Action::Queue(QueueAction::Delete)),
        ],
        Path::Messages => &[(Verb::Post, Action::Posts(PostAction::Send))],
        Path::MessageFlags => &[(Verb::Post, Action::Marks(MarkAction::ChangeFlags))],
        Path::Message => &[
            (Verb::Patch, Action::Posts(PostAction::Change)),
            (Verb::Delete, Action::Posts(PostAction::Delete)),
        ],
        Path::MessageReactions => &[
            (Verb::Post, Action::Marks(MarkAction::AddReaction)),
            (Verb::Delete, Action::Marks(MarkAction::RemoveReaction)),
        ],
        Path::Users => &[(Verb::Post, Action::People(PeopleAction::Add))],
        Path::User => &[
            (Verb::Patch, Action::People(PeopleAction::Change)),
            (Verb::Delete, Action::People(PeopleAction::Deactivate)),
        ],
        Path::UserReactivate => &[(Verb::Post, Action::People(PeopleAction::Reactivate))],
        Path::Subscriptions => &[
            (Verb::Post, Action::Streams(StreamAction::Join)),
            (Verb::Delete, Action::Streams(StreamAction::Leave)),
        ],
        Path::SubscriptionProperties => &[(Verb::Post, Action::Streams(StreamAction::SetProperty))],
        Path::Stream => &[
            (Verb::Patch, Action::Streams(StreamAction::Change)),
            (Verb::Delete, Action::Streams(StreamAction::Archive)),
        ],
        Path::Realm => &[(Verb::Patch, Action::People(PeopleAction::ChangeRealm))],
    }
}
