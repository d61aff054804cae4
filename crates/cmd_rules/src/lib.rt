//! The rules that commands of several kinds share: what a role allows, which names are taken, what
//! the texts of a command are, and how much a realm may hold.
#![tactic(auto)]

mod commit;
mod ids;
mod limits;
mod roles;
mod texts;

pub use commit::commit_change;
pub use ids::distinct;
pub use limits::{accept, accepted_texts, is_past};
pub use roles::{
    is_administrator, is_guest_user, is_only_owner, is_owner, is_owner_role, may_change,
};
pub use texts::{GivenText, pass_limit, read_texts};
