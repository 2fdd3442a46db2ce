//! Texts and lists of texts as clauses see them: as their bytes.

ghost use Rattle.std.specs.Prelude.{◌≡◌, ◌<◌, ◌↔◌, [], length, map, slice_get, IsTrue, IfOk, string_bytes};

use std::alloc::{AllocError, Global};
use std::marker::Model;

/// A text, seen as the list of its bytes. It is made from a `String` and gives it back without taking memory.
#[derive(Debug, Drop)]
pub struct Text {
    text: String,
}

impl Model for Text {
    ghost use Rattle.std.specs.Prelude.{List, ℕ, string_bytes};

    ghost Value = { List ℕ };

    ghost view = { λ t. string_bytes t.text };
}

impl Text {
    /// This text.
    pub fn of(text: String) -> Text
        ensures { result ≡ string_bytes text }
    {
        Text { text }
    }

    /// The text as a `String`.
    pub fn into_string(self) -> String
        ensures { string_bytes result ≡ self }
    {
        let Text { text } = self;
        text
    }

    /// The text.
    pub fn as_str(&self) -> &str
        ensures { result.now ≡ self.now }
    {
        self.text.as_str()
    }

    /// Its bytes, in order.
    pub fn as_bytes(&self) -> &[u8]
        ensures { result.now ≡ self.now }
    {
        self.text.as_bytes()
    }
}

/// A list of texts, seen as the list of their bytes.
#[derive(Debug, Drop)]
pub struct Texts {
    items: Vec<Text>,
}

impl Model for Texts {
    ghost use Rattle.std.specs.Prelude.{List, ℕ};

    ghost Value = { List (List ℕ) };

    ghost view = { λ t. t.items.items };
}

impl Texts {
    /// The list of these texts.
    pub fn of(items: Vec<Text>) -> Texts
        ensures { result ≡ items.items }
    {
        Texts { items }
    }

    /// How many texts there are.
    pub fn len(&self) -> usize
        ensures { result ≡ length self.now }
    {
        self.items.len()
    }

    /// Whether there is no text.
    pub fn is_empty(&self) -> bool
        ensures { IsTrue result ↔ (self.now ≡ []) }
    {
        self.items.is_empty()
    }

    /// Text n, from 0.
    pub fn get(&self, n: usize) -> &Text
        requires { n < length self.now }
        ensures { slice_get self.now n ≡ Some result.now }
    {
        &self.items[n]
    }

    /// The bytes of all texts, in order.
    pub fn bytes(&self, alloc: Global) -> Result<Vec<&[u8]>, AllocError>
        ensures { IfOk result (λ bytes. map (λ b. b.now) bytes.items ≡ self.now) }
    {
        let mut bytes = Vec::new(alloc);
        for text in self.as_slice() {
            bytes.push(text.as_bytes())?;
        }
        Ok(bytes)
    }

    /// All texts, in order.
    pub fn as_slice(&self) -> &[Text]
        ensures { result.now ≡ self.now }
    {
        self.items.as_slice()
    }
}
