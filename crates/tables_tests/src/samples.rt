//! What several modules of these tests use.

use ev_base::Text;
use std::fmt::Debug;
use std::process::Abort;

/// Fails where what was found isn't what was wanted. An `assert_eq!` in each test would be proved
/// again there; this one is proved once.
pub fn same<T: PartialEq + Debug + Drop>(rt: &impl Abort, found: T, wanted: T) {
    assert_eq!(rt; found, wanted);
}

pub fn text_is(text: &Text, wanted: &str) -> bool {
    text.as_str() == wanted
}
