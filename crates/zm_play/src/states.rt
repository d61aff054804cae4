//! States of fetched sections.

ghost use Rattle.std.specs.Prelude.{◌≡◌, fold};
ghost use Rattle.ev_types.specs.Sections.{sections_of};
ghost use Rattle.rg_flow.specs.Placed.{no_sections};
ghost use Rattle.zm_play.specs.States.{with_part};

use ev_types::State;
use rg_flow::{empty_state, with_section};
use zw_traces::FetchedSection;

/// The state that these sections make. Of one that stands twice the last counts.
pub fn state_of(parts: Vec<FetchedSection>) -> State
    ensures { sections_of result ≡ fold with_part no_sections parts.items }
{
    let mut state = empty_state();
    for part in parts {
        with_section(&mut state, part.rows);
    }
    state
}
