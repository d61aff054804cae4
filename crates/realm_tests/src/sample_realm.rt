//! A small realm that tests look at: Ann, an owner, is subscribed to the lab, a public stream, and
//! got the message that she sent there.

use ev_base::{
    MessageId, NoMemory, Place, Privacy, Role, StreamId, Text, TextFault, TextKind, UserId,
};
use std::alloc::Global;
use std::test::Fail;
use zr_marks::Marks;
use zr_people::Users;
use zr_posts::Posts;
use zr_realm::{Counts, Realm};
use zr_streams::Streams;
use zr_types::{Message, RealmRow, Receipt, Stream, Subscription, User};

pub const ANN: UserId = UserId(1);

pub const LAB: StreamId = StreamId(1);

pub const ONE: MessageId = MessageId(1);

/// What is told of the sample realm after so many commits. No test owns it: proofs on functions that
/// do are dear.
pub fn of_sample<R, F: Fn(&Realm) -> Result<R, Fail>>(
    alloc: Global,
    commits: u64,
    tell: F,
) -> Result<R, Fail>
    requires calls { F.IsAlwaysCallable tell }
{
    let realm = sample_realm(alloc, commits)?.ok_or("the sample is sound")?;
    tell(&realm)
}

fn sample_realm(alloc: Global, commits: u64) -> Result<Option<Realm>, Fail> {
    let counts = Counts {
        commits,
        sent: 1,
        text_bytes: 0,
    };
    Ok(realm_of(
        alloc,
        people(alloc)?,
        streams(alloc)?,
        posts(alloc)?,
        counts,
    )?)
}

// The realm of these tables, without reactions.
#[tactic(none)]
fn realm_of(
    alloc: Global,
    people: Users,
    streams: Streams,
    posts: Posts,
    counts: Counts,
) -> Result<Option<Realm>, NoMemory> {
    Realm::from_tables(alloc, people, streams, posts, Marks::new(alloc), counts)
}

fn people(alloc: Global) -> Result<Users, Fail> {
    let mut people = Users::new(alloc, realm_row(alloc)?);
    people.users_reserve(1)?;
    people.users_put(ANN, ann(alloc)?);
    Ok(people)
}

fn realm_row(alloc: Global) -> Result<RealmRow, TextFault> {
    Ok(RealmRow {
        name: Text::read(alloc, TextKind::RealmName, "Realm")?,
        description: Text::read(alloc, TextKind::RealmDescription, "")?,
    })
}

fn ann(alloc: Global) -> Result<User, TextFault> {
    Ok(User {
        email: Text::read(alloc, TextKind::Email, "ann@x.org")?,
        full_name: Text::read(alloc, TextKind::FullName, "Ann")?,
        role: Role::Owner,
        is_active: true,
        key: Text::read(alloc, TextKind::ApiKey, "k1")?,
    })
}

fn streams(alloc: Global) -> Result<Streams, Fail> {
    let mut streams = Streams::new(alloc);
    add_lab(&mut streams, alloc)?;
    subscribe_ann(&mut streams, alloc)?;
    Ok(streams)
}

fn add_lab(streams: &mut Streams, alloc: Global) -> Result<(), Fail> {
    streams.streams_reserve(1)?;
    let row = Stream {
        name: Text::read(alloc, TextKind::StreamName, "lab")?,
        description: Text::read(alloc, TextKind::StreamDescription, "")?,
        privacy: Privacy::Public,
        archived: false,
    };
    streams.streams_put(LAB, row);
    Ok(())
}

fn subscribe_ann(streams: &mut Streams, alloc: Global) -> Result<(), Fail> {
    streams.subscriptions_reserve(1)?;
    let row = Subscription {
        color: Text::read(alloc, TextKind::Color, "#c2c2c2")?,
        is_muted: false,
        pin_to_top: false,
    };
    streams.subscriptions_put((ANN, LAB), row);
    Ok(())
}

fn posts(alloc: Global) -> Result<Posts, Fail> {
    let mut posts = Posts::new(alloc);
    add_one(&mut posts, alloc)?;
    add_receipt(&mut posts)?;
    Ok(posts)
}

fn add_one(posts: &mut Posts, alloc: Global) -> Result<(), Fail> {
    posts.messages_reserve(1)?;
    let topic = Text::read(alloc, TextKind::Topic, "t")?;
    let row = Message {
        sender: ANN,
        place: Place::Stream { stream: LAB, topic },
        content: Text::read(alloc, TextKind::Content, "one")?,
        timestamp: 0,
    };
    posts.messages_put(ONE, row);
    Ok(())
}

fn add_receipt(posts: &mut Posts) -> Result<(), Fail> {
    posts.receipts_reserve(1)?;
    let row = Receipt {
        read: true,
        starred: false,
        collapsed: false,
    };
    posts.receipts_put((ONE, ANN), row);
    Ok(())
}
