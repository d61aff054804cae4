//! Why a body is not read.

use ev_types::Section;

/// The name of a member of a body.
#[derive(Clone, Copy, Debug, PartialEq, Eq)]
pub struct BodyKey(pub &'static str);

/// Why a text is no body. The first of these counts, members and rows in the order in which a body
/// that is written has them.
#[derive(Clone, Copy, Debug, PartialEq, Eq)]
pub enum BodyFault {
    NoMemory,
    /// It is no JSON, or no object.
    Json,
    /// This member is absent, or of the wrong kind.
    Key(BodyKey),
    /// This row of a section is none, or its key isn't above the one before. Places are counted from
    /// 0.
    Row { section: Section, index: u64 },
    /// This event is none. Places are counted from 0.
    Entry { index: u64 },
}
