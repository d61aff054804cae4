//! The laws over all scripts, each the contract of a function that does nothing.

ghost use Rattle.zm_laws.specs.Laws.{OneRun, OneText, PromisesHold};

use zs_script::{one_list_of_steps, only_first_steps_make_shards, steps_may_be_played};

/// The promises hold of whatever is played in a legal history.
pub fn promises_hold()
    ensures { PromisesHold }
{
    steps_may_be_played();
    only_first_steps_make_shards();
}

/// A script has one run.
pub fn one_run()
    ensures { OneRun }
{
    steps_may_be_played();
    only_first_steps_make_shards();
    one_list_of_steps();
}

/// A script has one text.
pub fn one_text()
    ensures { OneText }
{
    one_run();
}
