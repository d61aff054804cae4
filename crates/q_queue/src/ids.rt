//! Ids of events. Inside a queue an id is the number of events up to it, so that 0 is before all.

ghost use Rattle.std.specs.Prelude.{◌≡◌, ◌<◌, ◌^◌};
ghost use Rattle.zw_traces.specs.Account.{count_of, id_of, is_below_all};

/// The id of the last of `count` events, which is -1 where there is none.
pub fn id_of(count: u64) -> i64
    requires { count < 2 ^ 63 }
    ensures { result ≡ id_of count }
{
    count as i64 - 1
}

/// How many events have an id up to this one.
pub fn count_of(id: i64) -> u64
    ensures { result ≡ count_of id }
{
    if id < 0 { 0 } else { id as u64 + 1 }
}

/// Whether an id is below -1, which no event and no acknowledgement has.
pub fn is_below_all(id: i64) -> bool
    ensures { result ≡ is_below_all id }
{
    id < -1
}
