//! Changes to flags and reactions.

ghost use Rattle.std.specs.Prelude.{◌≡◌, ◌≤◌};
ghost use Rattle.std.specs.BTreeMap.{insert_entry};
ghost use Rattle.ev_base.specs.Orders.{reaction_cmp};
ghost use Rattle.zr_types.specs.Effects.{without};

use ev_base::{MessageId, Text, UserId};
use zr_marks::Marks;

pub fn add_reaction(marks: &mut Marks, message: MessageId, user: UserId, emoji: Text)
    requires { 1 ≤ marks.old.reactions.spare }
    ensures { marks.new.reactions.rows
        ≡ insert_entry reaction_cmp marks.old.reactions.rows (message, user, emoji) tt }
{
    marks.reactions_put((message, user, emoji), ());
}

pub fn remove_reaction(marks: &mut Marks, message: MessageId, user: UserId, emoji: Text)
    ensures { marks.new.reactions.rows
        ≡ without reaction_cmp (message, user, emoji) marks.old.reactions.rows }
{
    marks.reactions_drop_key(&(message, user, emoji));
}
