//! The messages that a command sets or clears a flag of.

ghost use Rattle.std.specs.Prelude.{◌≡◌, ℕ, ◌<◌, ◌≤◌, List, [], ◌∷◌, ◌++◌, insert, length, map, nat_lt, true, false, IfOk};
ghost use Rattle.std.specs.Ordering.{nat_cmp};
ghost use Rattle.zr_types.specs.Commands.{differing, differs, distinct, distinct_messages, flag_in};
ghost use Rattle.zr_types.specs.Refusals.{max_flagged};
ghost use Rattle.zr_types.specs.Checks.{numbers_of_messages};

use arrayvec::ArrayVec;
use cmd_rules::distinct;
use ev_base::{Flag, Listed, MessageId, NoMemory, UserId};
use std::alloc::Global;
use zr_realm::Realm;
use zr_types::Receipt;

// How many distinct messages a command may name.
const MAX_FLAGGED: usize = 1_000;

/// Whether the flag of the user's receipt for the message isn't so already.
pub fn differs(realm: &Realm, user: UserId, flag: Flag, add: bool, message: MessageId) -> bool
    ensures { result ≡ differs realm.now.state.tables user flag add message }
{
    realm
        .receipt(user, message)
        .is_some_and(|receipt| flag_in(flag, receipt) != add)
}

fn flag_in(flag: Flag, receipt: &Receipt) -> bool
    ensures { result ≡ flag_in flag receipt.now }
{
    match flag {
        Flag::Read => receipt.read,
        Flag::Starred => receipt.starred,
        Flag::Collapsed => receipt.collapsed,
    }
}

/// The numbers of those messages whose flag isn't so already, each once, rising.
pub fn differing_numbers(
    alloc: Global,
    realm: &Realm,
    user: UserId,
    flag: Flag,
    add: bool,
    messages: &[MessageId],
) -> Result<Listed<u32>, NoMemory>
    ensures { IfOk result (λ numbers. numbers ≡ numbers_of_messages realm.now.state.tables user
        (differing realm.now.state.tables user flag add messages.now)) }
{
    let named = numbers_of(alloc, messages)?;
    let mut numbers = distinct(named);
    numbers.retain(|number| differs(realm, user, flag, add, MessageId(*number)));
    Ok(Listed::from_vec(numbers))
}

fn numbers_of(alloc: Global, messages: &[MessageId]) -> Result<Vec<u32>, NoMemory>
    ensures { IfOk result (λ numbers. numbers.items ≡ map (λ message. message.0) messages.now) }
{
    Ok(messages.iter().map(|message| message.0).collect(alloc)?)
}

/// Whether more distinct messages are named than a command may name. It takes no memory: in a list
/// that is longer than that, each is looked up among the distinct ones before it.
pub fn are_too_many(messages: &[MessageId]) -> bool
    ensures { result ≡ nat_lt max_flagged (length (distinct_messages messages.now)) }
{
    if messages.len() <= MAX_FLAGGED {
        return false;
    }
    let mut seen = ArrayVec::new();
    for message in messages {
        if !add_number(&mut seen, message.0) {
            return true;
        }
    }
    false
}

// Adds a number to distinct ones that rise, and answers whether there is room for it.
fn add_number(seen: &mut ArrayVec<u32, MAX_FLAGGED>, number: u32) -> bool
    ensures room { length seen.new.items ≤ max_flagged }
    ensures added { result ≡ true → (numbers : List ℕ) → seen.old.items ≡ distinct nat_cmp numbers
        → seen.new.items ≡ distinct nat_cmp (numbers ++ number ∷ []) }
    ensures full { result ≡ false → (numbers : List ℕ) → seen.old.items ≡ distinct nat_cmp numbers
        → max_flagged < length (distinct nat_cmp (numbers ++ number ∷ [])) }
{
    match seen.as_slice().binary_search(&number) {
        Ok(_) => true,
        Err(at) => insert_number(seen, at, number),
    }
}

fn insert_number(seen: &mut ArrayVec<u32, MAX_FLAGGED>, at: usize, number: u32) -> bool
    requires { at ≤ length seen.old.items }
    ensures room { length seen.new.items ≤ max_flagged }
    ensures added { result ≡ true → seen.new.items ≡ insert seen.old.items at number }
    ensures full { result ≡ false → length seen.old.items ≡ max_flagged }
{
    if seen.is_full() {
        return false;
    }
    seen.insert(at, number);
    true
}
