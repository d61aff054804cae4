//! Why a fetch gave nothing.

/// Why a fetch gave nothing.
#[derive(Clone, Copy, Debug, PartialEq, Eq)]
pub enum FetchFault {
    /// The user doesn't exist, or isn't active.
    Unknown,
    NoMemory,
}
