//! The pieces of work.

ghost use Rattle.std.specs.Prelude.{◌≡◌, ◌+◌, ◌≤◌, vec_len};

use ev_base::{MessageId, NoMemory, UserId, rows_rise};
use std::alloc::Global;
use zr_posts::Posts;
use zr_types::Receipt;

const UNREAD: Receipt = Receipt {
    read: false,
    starred: false,
    collapsed: false,
};

/// A million receipts, put in rising order: a hundred for each of ten thousand messages.
pub fn filled(alloc: Global) -> Result<Posts, NoMemory> {
    let mut posts = Posts::new(alloc);
    posts.receipts_reserve(1_000_000)?;
    for place in 0..1_000_000 {
        let key = (MessageId(1 + place / 100), UserId(1 + place % 100));
        posts.receipts_put(key, UNREAD);
    }
    Ok(posts)
}

/// Ten thousand more for a message in the middle, one at a time.
pub fn put_in_the_middle(mut posts: Posts) -> Result<Posts, NoMemory> {
    posts.receipts_reserve(10_000)?;
    for place in 0..10_000 {
        posts.receipts_put((MessageId(5_000), UserId(1_000 + place)), UNREAD);
    }
    Ok(posts)
}

/// Ten thousand more, as a message to all users brings, in one pass.
pub fn merged(alloc: Global, mut posts: Posts) -> Result<Posts, NoMemory> {
    let mut new_rows = Vec::with_capacity(alloc, 10_000)?;
    for user in 1..10_001 {
        new_rows.push(((MessageId(10_001), UserId(user)), UNREAD))?;
    }
    if rows_rise(&new_rows) {
        posts.receipts_reserve(new_rows.len())?;
        posts.receipts_merge(new_rows);
    }
    Ok(posts)
}

/// All but those for one message, as its deletion leaves them.
pub fn without_a_message(mut posts: Posts) -> Posts {
    posts.receipts_drop_of(&MessageId(50));
    posts
}
