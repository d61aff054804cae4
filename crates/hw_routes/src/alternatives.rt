//! What the routes share: the id of a path, and parameters that may not stand together.

ghost use Rattle.std.specs.Prelude.{◌≡◌};
ghost use Rattle.hw_routes.specs.Alternatives as spec;
ghost use Rattle.hw_values.specs.Readings.{Gives};

use crate::paths::id_piece;
use ev_base::{MessageId, StreamId, UserId};
use hw_values::{Form, Param, ValueFault, id_of};

/// Refuses `first` where one of the parameters is given, of which it is the first.
pub fn without(form: &Form, first: Param, params: &[Param]) -> Result<(), ValueFault>
    ensures { Gives result (spec.without first params.now form.now) }
{
    if form.has_any(params) {
        Err(ValueFault::BadValue(first))
    } else {
        Ok(())
    }
}

fn path_id(path: &[u8]) -> Result<u32, ValueFault>
    ensures { Gives result (spec.path_id path.now) }
{
    match id_of(id_piece(path)) {
        Some(id) => Ok(id),
        None => Err(ValueFault::BadValue(Param::Id)),
    }
}

pub fn path_user(path: &[u8]) -> Result<UserId, ValueFault>
    ensures { Gives result (spec.path_user path.now) }
{
    Ok(UserId(path_id(path)?))
}

pub fn path_stream(path: &[u8]) -> Result<StreamId, ValueFault>
    ensures { Gives result (spec.path_stream path.now) }
{
    Ok(StreamId(path_id(path)?))
}

pub fn path_message(path: &[u8]) -> Result<MessageId, ValueFault>
    ensures { Gives result (spec.path_message path.now) }
{
    Ok(MessageId(path_id(path)?))
}
