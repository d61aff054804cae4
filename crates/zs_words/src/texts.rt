//! The texts that words stand for.

ghost use Rattle.std.specs.Prelude.{◌≡◌, ◌↔◌, ◌+◌, ◌*◌, ◌<◌, ◌≤◌, ◌⊎◌, List, ℕ, true, false, IfOk, IsTrue, MatchOption, None, Some, IsUtf8, length, [], ◌∷◌};
ghost use Rattle.std.specs.Char.{digit_value};
ghost use Rattle.zs_words.specs.Readings.{Reads};
ghost use Rattle.zs_words.specs.Texts.{DecodesToUtf8, IsText, decoded, is_hexadecimal};
ghost use Rattle.zs_words.specs.TextParts.{BeginsWith, BeginsWithUtf8};

use crate::fault::LineFault;
use arrayvec::ArrayVec;
use ev_base::PlainText;
use std::alloc::{AllocError, Global};
use std::str;

/// The word for the empty text.
const EMPTY: &[u8] = b"%";

/// The most bytes of a character.
const MAX_CHAR_BYTES: usize = 4;

/// The text for which the word stands.
pub fn read_text(alloc: Global, word: &[u8]) -> Result<PlainText, LineFault>
    ensures { Reads (IsText word.now) result }
{
    if is_text(word) {
        Ok(text_of(alloc, word)?)
    } else {
        Err(LineFault::NotAStep)
    }
}

/// Whether the word stands for a text. This takes no memory.
pub fn is_text(word: &[u8]) -> bool
    ensures { IsTrue result ↔ ((text : List ℕ) × IsText word.now text) }
{
    word == EMPTY || (!word.is_empty() && decodes_to_utf8(word))
}

/// The text for which the word stands, which is one for a text.
pub fn text_of(alloc: Global, word: &[u8]) -> Result<PlainText, AllocError>
    requires { (text : List ℕ) × IsText word.now text }
    ensures { IfOk result (λ text. IsText word.now text) }
{
    if word == EMPTY {
        return Ok(PlainText::new(String::new(alloc)));
    }
    let Ok(text) = String::from_utf8(decoded_bytes(alloc, word)?) else {
        unreachable!()
    };
    Ok(PlainText::new(text))
}

fn decoded_bytes(alloc: Global, word: &[u8]) -> Result<Vec<u8>, AllocError>
    requires { (bytes : List ℕ) × (decoded word.now ≡ Some bytes) }
    ensures { IfOk result (λ bytes. decoded word.now ≡ Some bytes.items) }
{
    let mut bytes = Vec::new(alloc);
    let mut rest = word;
    while let Some((byte, next)) = split_byte(rest) {
        bytes.push(byte)?;
        rest = next;
    }
    Ok(bytes)
}

/// Whether the bytes for which the word stands are UTF-8.
fn decodes_to_utf8(word: &[u8]) -> bool
    ensures { IsTrue result ↔ DecodesToUtf8 word.now }
{
    let mut rest = word;
    while !rest.is_empty() {
        let Some(next) = split_char(rest) else {
            return false;
        };
        rest = next;
    }
    true
}

/// What follows the first character for which the word stands.
fn split_char(word: &[u8]) -> Option<&[u8]>
    requires { 0 < length word.now }
    ensures { MatchOption result
        (DecodesToUtf8 word.now → ⊥)
        (λ rest. BeginsWithUtf8 word.now rest.now) }
{
    let mut bytes: ArrayVec<u8, MAX_CHAR_BYTES> = ArrayVec::new();
    let mut rest = word;
    for _ in 0..MAX_CHAR_BYTES {
        let Some((byte, next)) = split_byte(rest) else {
            return None;
        };
        bytes.push(byte);
        rest = next;
        if is_utf8(&bytes) {
            return Some(rest);
        }
    }
    None
}

fn is_utf8(bytes: &[u8]) -> bool
    ensures { IsTrue result ↔ IsUtf8 bytes.now }
{
    match str::from_utf8(bytes) {
        Ok(_) => true,
        Err(_) => false,
    }
}

/// The first byte for which the word stands, and what follows it.
fn split_byte(word: &[u8]) -> Option<(u8, &[u8])>
    ensures { MatchOption result
        ((word.now ≡ []) ⊎ (decoded word.now ≡ None))
        (λ split. BeginsWith word.now (split.0 ∷ []) split.1.now) }
{
    let (first, rest) = word.split_first()?;
    if *first == b'%' {
        split_escape(rest)
    } else {
        Some((*first, rest))
    }
}

/// The byte that two hexadecimal digits behind a `%` write, and what follows them.
fn split_escape(digits: &[u8]) -> Option<(u8, &[u8])>
    ensures { MatchOption result
        (decoded (37 ∷ digits.now) ≡ None)
        (λ split. BeginsWith (37 ∷ digits.now) (split.0 ∷ []) split.1.now) }
{
    let (high, after_high) = digits.split_first()?;
    let (low, rest) = after_high.split_first()?;
    let high = hexadecimal(*high)?;
    let low = hexadecimal(*low)?;
    Some((16 * high + low, rest))
}

/// The value of a hexadecimal digit.
fn hexadecimal(byte: u8) -> Option<u8>
    ensures { MatchOption result
        (is_hexadecimal byte ≡ false)
        (λ value. (is_hexadecimal byte ≡ true) × (value ≡ digit_value byte) × (value < 16)) }
{
    let value = char::from(byte).to_digit(16)?;
    Some(value as u8)
}
