//! One piece of work on long lists of rows, to be timed from outside.
//!
//! The first argument names the work. On a million receipts it is `fill`, `middle`, `merge` or
//! `delete`; on as many events and rows as the second argument says it is `state`, `prepare` or
//! `apply`. Without one nothing is done.
#![tactic(auto)]

mod events;
mod work;

use std::alloc::Global;
use std::env;

fn main(rt: HostRuntime) -> anyhow::Result<()> {
    let mut words = env::args(&rt)?.skip(1);
    let Some(name) = words.next() else {
        return Ok(());
    };
    match words.next() {
        Some(count) => play_events(rt.alloc(), name.as_str(), count.as_str()),
        None => change_receipts(rt.alloc(), name.as_str()),
    }
}

fn change_receipts(alloc: Global, name: &str) -> anyhow::Result<()> {
    let filled = work::filled(alloc)?;
    let (posts, expected) = match name {
        "fill" => (filled, 1_000_000),
        "middle" => (work::put_in_the_middle(filled)?, 1_010_000),
        "merge" => (work::merged(alloc, filled)?, 1_010_000),
        "delete" => (work::without_a_message(filled), 999_900),
        _ => anyhow::bail!("the work is fill, middle, merge or delete"),
    };
    anyhow::ensure!(posts.receipts_rows().len() == expected, "rows are missing");
    Ok(())
}

fn play_events(alloc: Global, name: &str, count: &str) -> anyhow::Result<()> {
    let count = count.parse()?;
    anyhow::ensure!(count <= 1_000_000, "there are a million events at most");
    let state = events::played(alloc, name, count)?;
    anyhow::ensure!(state.messages.is_some(), "messages are missing");
    Ok(())
}
