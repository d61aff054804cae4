//! The numbers of users, streams and messages, and the ids of queues.

ghost use Rattle.std.specs.Prelude.{◌≡◌, length};
ghost use Rattle.ev_base.specs.QueueIds.{FitsItsBits, queue_bytes, queue_of_bytes, queue_of_text, queue_text};
ghost use Rattle.ev_base.specs.declared.ids.QueueId.{QueueId};

use crate::exact_clone::ExactClone;
use std::fmt;
use uuid::Uuid;

/// A user's number, counted from 1 in order of creation.
#[derive(Clone, Copy, Debug, PartialEq, Eq, PartialOrd, Ord, Hash)]
pub struct UserId(pub u32);

/// A stream's number, counted from 1 in order of creation.
#[derive(Clone, Copy, Debug, PartialEq, Eq, PartialOrd, Ord, Hash)]
pub struct StreamId(pub u32);

/// A message's number, counted from 1 in order of creation.
#[derive(Clone, Copy, Debug, PartialEq, Eq, PartialOrd, Ord, Hash)]
pub struct MessageId(pub u32);

/// A queue: its user, how many queues that user had opened before it, and a salt.
#[derive(Clone, Copy, Debug, PartialEq, Eq, PartialOrd, Ord, Hash)]
pub struct QueueId {
    pub user: UserId,
    pub number: u32,
    pub salt: u64,
}

impl ExactClone for UserId {
    ghost exact = { λ _ _ same. same };
}

impl ExactClone for StreamId {
    ghost exact = { λ _ _ same. same };
}

impl ExactClone for MessageId {
    ghost exact = { λ _ _ same. same };
}

impl ExactClone for QueueId {
    ghost exact = { λ _ _ same. same };
}

impl fmt::Display for UserId {
    ghost use Rattle.std.specs.Prelude.{Some};
    ghost use Rattle.std.specs.Fmt.{decimal};

    ghost output = { λ id. Some (decimal id.0) };

    fn fmt<W: fmt::Write>(&self, f: &mut fmt::Formatter<W>) -> fmt::Result {
        write!(f, "{}", self.0)
    }
}

impl fmt::Display for StreamId {
    ghost use Rattle.std.specs.Prelude.{Some};
    ghost use Rattle.std.specs.Fmt.{decimal};

    ghost output = { λ id. Some (decimal id.0) };

    fn fmt<W: fmt::Write>(&self, f: &mut fmt::Formatter<W>) -> fmt::Result {
        write!(f, "{}", self.0)
    }
}

impl fmt::Display for MessageId {
    ghost use Rattle.std.specs.Prelude.{Some};
    ghost use Rattle.std.specs.Fmt.{decimal};

    ghost output = { λ id. Some (decimal id.0) };

    fn fmt<W: fmt::Write>(&self, f: &mut fmt::Formatter<W>) -> fmt::Result {
        write!(f, "{}", self.0)
    }
}

/// The text of a queue id is the lower-case hyphenated form of its 128 bits.
impl fmt::Display for QueueId {
    ghost use Rattle.std.specs.Prelude.{Some};

    ghost output = { λ queue. Some (queue_text queue) };

    fn fmt<W: fmt::Write>(&self, f: &mut fmt::Formatter<W>) -> fmt::Result {
        write!(f, "{}", self.to_uuid().hyphenated())
    }
}

impl QueueId {
    /// The queue that a text names, in any form that `uuid` reads. Any other text names the queue
    /// of user 0 with number 0 and salt 0, which is no user's, since users are counted from 1.
    pub fn from_text(text: &str) -> QueueId
        ensures { result ≡ queue_of_text text.now }
    {
        match Uuid::try_parse(text) {
            Ok(uuid) => QueueId::from_uuid(uuid),
            Err(_) => QueueId::from_uuid(Uuid::nil()),
        }
    }

    fn to_uuid(self) -> Uuid
        ensures { result ≡ queue_bytes self }
    {
        let opened = (u64::from(self.user.0) << 32) | u64::from(self.number);
        Uuid::from_u64_pair(opened, self.salt)
    }

    fn from_uuid(uuid: Uuid) -> QueueId
        ensures { result ≡ queue_of_bytes uuid }
    {
        let (opened, salt) = uuid.as_u64_pair();
        QueueId {
            user: UserId((opened >> 32) as u32),
            number: (opened & 0xffff_ffff) as u32,
            salt,
        }
    }
}

/// The text of a queue id is read back as that queue id.
pub fn queue_texts_read_back()
    ensures { (queue : QueueId) → FitsItsBits queue → queue_of_text (queue_text queue) ≡ queue }
{}

/// The text of a queue id has 36 bytes.
pub fn queue_texts_have_36_bytes()
    ensures { (queue : QueueId) → length (queue_text queue) ≡ 36 }
{}
