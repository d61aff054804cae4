//! Texts by their kind, which says how long one may be and which characters it may have.

ghost use Rattle.std.specs.Prelude.{◌≡◌, ◌⊎◌, ℕ, List, length, IfErr, IfOk, None, Some, nat_eq};
ghost use Rattle.std.specs.Str.{chars};
ghost use Rattle.std.specs.Ordering.{nat_cmp};
ghost use Rattle.std.specs.Cmp.{partial_equiv_from_equiv};
ghost use Rattle.std.specs.Cmp.Lexicographic.{nat_list_cmp_total, nat_list_eq_equiv, pointwise, slice_cmp, texts_po, texts_ties};
ghost use Rattle.std.specs.Cmp.Rules.{hashing};
ghost use Rattle.std.specs.Hash as fed;
ghost use Rattle.std.proofs.Common.{refl, rules};
ghost use Rattle.ev_base.specs.Texts.{IsText, bad_place, fault_of, least, may_have, most};

use crate::exact_clone::ExactClone;
use std::alloc::{AllocError, Global};
use std::cmp::Ordering;
use std::fmt;
use std::hash::{Hash, Hasher};
use std::marker::Model;

/// What a text is for.
#[derive(Clone, Copy, Debug, PartialEq, Eq, Hash)]
pub enum TextKind {
    RealmName,
    RealmDescription,
    StreamName,
    StreamDescription,
    Topic,
    FullName,
    Email,
    ApiKey,
    Content,
    Emoji,
    Color,
}

/// Why a text was not read. Lengths and places are counted in characters, places from 0.
#[derive(Clone, Copy, Debug, PartialEq, Eq)]
pub enum TextFault {
    TooShort { chars: u64 },
    TooLong { chars: u64 },
    BadChar { place: u64 },
    NoMemory,
}

impl fmt::Display for TextFault {
    ghost use Rattle.std.specs.Prelude.{Some};
    ghost use Rattle.ev_base.specs.Texts.{fault_text};

    ghost output = { λ fault. Some (fault_text fault) };

    fn fmt<W: fmt::Write>(&self, f: &mut fmt::Formatter<W>) -> fmt::Result {
        match self {
            TextFault::TooShort { chars } => write!(f, "too short at {chars} characters"),
            TextFault::TooLong { chars } => write!(f, "too long at {chars} characters"),
            TextFault::BadChar { place } => write!(f, "bad character at place {place}"),
            TextFault::NoMemory => write!(f, "out of memory"),
        }
    }
}

impl std::error::Error for TextFault {}

impl From<AllocError> for TextFault {
    ghost use Rattle.ev_base.specs.declared.text.TextFault.{TextFault};

    ghost from_gives = { λ _ fault. fault ≡ TextFault.NoMemory };

    fn from(_: AllocError) -> Self {
        TextFault::NoMemory
    }
}

/// A text of some kind. Contracts see it as its bytes.
#[derive(Drop)]
pub struct Text {
    inner: String,
}

impl Model for Text {
    ghost use Rattle.std.specs.Prelude.{List, ℕ, string_bytes};
    ghost use Rattle.ev_base.specs.Texts.{IsText};

    ghost Value = { List ℕ };

    ghost view = { λ text. string_bytes text.inner };

    ghost invariant = { λ text. IsText (string_bytes text.inner) };
}

impl TextKind {
    /// Why `text` is not of this kind: its length comes first, and then the first bad character.
    #[tactic(auto, unfolding(crate::specs::Texts::fault_of))]
    pub fn fault(self, text: &str) -> Option<TextFault>
        ensures { result ≡ fault_of self text.now }
    {
        let chars = count_chars(text);
        if chars < self.least() {
            return Some(TextFault::TooShort { chars });
        }
        if self.most() < chars {
            return Some(TextFault::TooLong { chars });
        }
        self.bad_place(text)
            .map(|place| TextFault::BadChar { place })
    }

    fn least(self) -> u64
        ensures { result ≡ least self }
    {
        match self {
            TextKind::RealmDescription | TextKind::StreamDescription => 0,
            TextKind::Color => 7,
            _ => 1,
        }
    }

    fn most(self) -> u64
        ensures { result ≡ most self }
    {
        match self {
            TextKind::RealmName | TextKind::StreamName | TextKind::Topic => 60,
            TextKind::RealmDescription | TextKind::StreamDescription => 1_024,
            TextKind::FullName | TextKind::Email => 100,
            TextKind::ApiKey => 64,
            TextKind::Content => 10_000,
            TextKind::Emoji => 40,
            TextKind::Color => 7,
        }
    }

    fn bad_place(self, text: &str) -> Option<u64>
        ensures { result ≡ bad_place self 0 (chars text.now) }
    {
        let mut place = 0;
        for c in text.chars() {
            if !self.may_have(place, c) {
                return Some(place);
            }
            place += 1;
        }
        None
    }

    fn may_have(self, place: u64, c: char) -> bool
        ensures { result ≡ may_have self place c }
    {
        match self {
            TextKind::Email => !(c.is_ascii_control() || c == ' ' || c == ':'),
            TextKind::ApiKey => c.is_ascii_alphanumeric(),
            TextKind::Content => c != '\0',
            TextKind::Emoji => {
                c.is_ascii_lowercase() || c.is_ascii_digit() || c == '_' || c == '+' || c == '-'
            }
            TextKind::Color if place == 0 => c == '#',
            TextKind::Color => c.is_ascii_hexdigit() && !c.is_ascii_uppercase(),
            _ => !c.is_ascii_control(),
        }
    }
}

fn count_chars(text: &str) -> u64
    ensures { result ≡ length (chars text.now) }
{
    text.chars().count() as u64
}

impl Text {
    /// Reads a text of a kind.
    pub fn read(alloc: Global, kind: TextKind, s: &str) -> Result<Text, TextFault>
        ensures ok { IfOk result (λ text. (text ≡ s.now) × (fault_of kind s.now ≡ None)) }
        ensures err { IfErr result
            (λ fault. (fault_of kind s.now ≡ Some fault) ⊎ (fault ≡ TextFault.NoMemory)) }
    {
        if let Some(fault) = kind.fault(s) {
            return Err(fault);
        }
        Ok(Text {
            inner: String::from_str(alloc, s)?,
        })
    }

    pub fn as_str(&self) -> &str
        ensures value { result.now ≡ self.now }
        ensures text { IsText self.now }
    {
        self.inner.as_str()
    }
}

/// Every text, whatever its kind, is also a realm's description or the content of a message.
pub fn texts_are_descriptions_or_contents()
    ensures { (text : List ℕ) → IsText text
        → (fault_of TextKind.RealmDescription text ≡ None)
        ⊎ (fault_of TextKind.Content text ≡ None) }
{}

impl Clone for Text {
    ghost is_clone = { λ text copy. copy ≡ text };

    fn clone(&self) -> Result<Text, AllocError> {
        Ok(Text {
            inner: self.inner.clone()?,
        })
    }
}

impl ExactClone for Text {
    ghost exact = { λ _ _ same. same };
}

impl PartialEq for Text {
    ghost eq = { pointwise nat_eq };

    ghost laws = { partial_equiv_from_equiv nat_list_eq_equiv };

    fn eq(&self, other: &Text) -> bool {
        self.inner == other.inner
    }
}

impl Eq for Text {
    ghost laws = { nat_list_eq_equiv };
}

/// Texts are in the order of their bytes.
impl Ord for Text {
    ghost cmp = { slice_cmp nat_cmp };

    ghost total = { nat_list_cmp_total };

    ghost matches_partial_cmp = { λ _ _. refl };

    ghost matches_eq = { texts_ties };

    fn cmp(&self, other: &Text) -> Ordering {
        self.inner.cmp(&other.inner)
    }
}

impl PartialOrd for Text {
    ghost partial_cmp = { λ a b. Some (slice_cmp nat_cmp a b) };

    ghost laws = { texts_po };

    fn partial_cmp(&self, other: &Text) -> Option<Ordering> {
        Some(self.cmp(other))
    }
}

impl Hash for Text {
    ghost hash_input = { fed.str };

    ghost respects_eq = { Prim.search (hashing, rules) };

    fn hash<H: Hasher>(&self, state: &mut H) {
        self.inner.hash(state);
    }
}

impl fmt::Debug for Text {
    fn fmt<W: fmt::Write>(&self, f: &mut fmt::Formatter<W>) -> fmt::Result {
        fmt::Debug::fmt(&self.inner, f)
    }
}

impl fmt::Display for Text {
    ghost output = { λ text. Some text };

    fn fmt<W: fmt::Write>(&self, f: &mut fmt::Formatter<W>) -> fmt::Result {
        fmt::Display::fmt(&self.inner, f)
    }
}
