//! What is written is read back.

ghost use Rattle.std.specs.Prelude.{◌≡◌, ◌≤◌, Some, IsUtf8};
ghost use Rattle.serde_json.specs.Data.{Data, depth};
ghost use Rattle.serde_json.specs.Read.{read};
ghost use Rattle.serde_json.specs.Written.{compact_text};
ghost use Rattle.ev_json.specs.Plain.{IsPlain};

/// The text without white space of a value is UTF-8, and is read as that value.
pub fn compact_texts_read_back()
    ensures { (value : Data) → IsPlain value → depth value ≤ 127
        → IsUtf8 (compact_text value) × (read (compact_text value) ≡ Some value) }
{}
