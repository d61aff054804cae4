//! The reasons that every command has after its own: bad texts, full tables and a full log.

ghost use Rattle.std.specs.Prelude.{◌≡◌, ◌+◌, nat_le, nat_lt, map, IfOk};
ghost use Rattle.std.specs.Option.{option_or};
ghost use Rattle.zr_types.specs.Refusals.{first_reason, max_commits};
ghost use Rattle.zr_types.specs.Commits.{refusal_in};
ghost use Rattle.cmd_rules.specs.Given.{last_reasons, text_of};

use crate::texts::{GivenText, have_fault, pass_limit, read_texts};
use ev_base::{Listed, Text};
use std::alloc::Global;
use zr_realm::Realm;
use zr_types::{CommitFault, Refusal};

// How many commits there may be.
const MAX_COMMITS: u64 = 1_000_000;

/// Whether so many more rows than are present are more than there may be.
pub fn is_past(max: usize, present: usize, more: usize) -> bool
    ensures { result ≡ nat_lt max (present + more) }
{
    max < present || max - present < more
}

fn log_is_full(realm: &Realm) -> bool
    ensures { result ≡ nat_le max_commits realm.now.state.commits }
{
    MAX_COMMITS <= realm.commits()
}

// Why a command with these texts is refused that no reason of its own refuses.
fn last_refusal(realm: &Realm, texts: &[GivenText<'_>], is_past_rows: bool) -> Option<Refusal>
    ensures { result ≡ first_reason (last_reasons realm.now.state texts.now is_past_rows) }
{
    if have_fault(texts) {
        return Some(Refusal::BadText);
    }
    if is_past_rows || pass_limit(realm.text_bytes(), texts) {
        return Some(Refusal::LimitReached);
    }
    if log_is_full(realm) {
        return Some(Refusal::LogFull);
    }
    None
}

/// Refuses a command with these texts for a reason of its own, or else for one that every command
/// has.
pub fn accept(
    realm: &Realm,
    own: Option<Refusal>,
    texts: &[GivenText<'_>],
    is_past_rows: bool,
) -> Result<(), CommitFault>
    ensures { refusal_in result ≡ option_or own
        (first_reason (last_reasons realm.now.state texts.now is_past_rows)) }
{
    if let Some(why) = own {
        return Err(CommitFault::Refused(why));
    }
    match last_refusal(realm, texts, is_past_rows) {
        Some(why) => Err(CommitFault::Refused(why)),
        None => Ok(()),
    }
}

/// The texts of a command that `accept` does not refuse.
pub fn accepted_texts(
    alloc: Global,
    realm: &Realm,
    own: Option<Refusal>,
    texts: &[GivenText<'_>],
    is_past_rows: bool,
) -> Result<Listed<Text>, CommitFault>
    ensures accepted { IfOk result (λ read. read ≡ map text_of texts.now) }
    ensures refused { refusal_in result ≡ option_or own
        (first_reason (last_reasons realm.now.state texts.now is_past_rows)) }
{
    accept(realm, own, texts, is_past_rows)?;
    Ok(read_texts(alloc, texts)?)
}
