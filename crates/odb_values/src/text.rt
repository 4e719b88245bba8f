//! Texts.
ghost use Rattle.std.specs.Prelude.{◌≡◌, ◌↔◌, IsSome, IfSome, IfOk, IsTrue, string_bytes};
ghost use Rattle.std.specs.List.{list_all};
ghost use Rattle.odb_values.specs.Text.{IsText, is_plain};

use crate::{Duplicate, Same};
use std::alloc::{AllocError, Global};
use std::marker::Model;

/// A text of at most 800 bytes of UTF-8, none of them a control byte (below 32) but tab.
/// Contracts see it as its bytes.
#[derive(Clone, Debug, Drop)]
pub struct Text {
    text: String,
}

impl Model for Text {
    ghost use Rattle.std.specs.Prelude.{List, ℕ, string_bytes};
    ghost use Rattle.odb_values.specs.Text.{IsText};

    ghost Value = { List ℕ };

    ghost view = { λ a. string_bytes a.text };

    ghost invariant = { λ a. IsText (string_bytes a.text) };
}

impl Text {
    /// The text of a string, or None where the string is longer than 800 bytes or has a control
    /// byte.
    pub fn new(text: String) -> Option<Text>
        ensures text { IsSome result ↔ IsText (string_bytes text) }
        ensures value { IfSome result (λ made. made ≡ string_bytes text) }
    {
        if is_text(text.as_str()) {
            Some(Text { text })
        } else {
            None
        }
    }

    /// A text with these bytes, or None where they are no text. The error is want of memory, which
    /// only a text asks for.
    pub fn from_str(alloc: Global, text: &str) -> Result<Option<Text>, AllocError>
        ensures text { IfOk result (λ made. IsSome made ↔ IsText text.now) }
        ensures value { IfOk result (λ made. IfSome made (λ copy. copy ≡ text.now)) }
    {
        if is_text(text) {
            Ok(Some(Text {
                text: String::from_str(alloc, text)?,
            }))
        } else {
            Ok(None)
        }
    }

    /// The text as Rust's.
    pub fn as_str(&self) -> &str
        ensures value { result.now ≡ self.now }
        ensures text { IsText self.now }
    {
        self.text.as_str()
    }

    /// The bytes of the text.
    pub fn as_bytes(&self) -> &[u8]
        ensures value { result.now ≡ self.now }
        ensures text { IsText self.now }
    {
        self.text.as_bytes()
    }
}

/// Whether a `str` makes a text: at most 800 bytes, none of them a control byte but tab.
pub fn is_text(text: &str) -> bool
    ensures { IsTrue result ↔ IsText text.now }
{
    text.len() <= 800 && are_plain(text.as_bytes())
}

/// Whether none of the bytes is a control byte but tab.
fn are_plain(bytes: &[u8]) -> bool
    ensures { result ≡ list_all is_plain bytes.now }
{
    bytes.iter().all(|b| 32 <= *b || *b == 9)
}

impl Duplicate for Text {
    fn copy(&self, alloc: Global) -> Result<Text, AllocError> {
        Ok(Text {
            text: String::from_str(alloc, self.text.as_str())?,
        })
    }
}

impl Same for Text {
    fn same(&self, other: &Text) -> bool {
        self.as_bytes() == other.as_bytes()
    }
}
