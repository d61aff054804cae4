//! The lines of a script, and the steps that they spell.
#![tactic(auto)]

mod marks;
mod people;
mod posts;
mod queues;
mod reading;
mod step;
mod streams;
mod words;

pub use reading::{
    one_list_of_steps, one_step_at_most, only_first_steps_make_shards,
    passed_over_lines_spell_none, read_line, steps_may_be_played,
};
pub use step::{Setting, Step};
pub use zs_words::LineFault;
