//! The text of a name.

ghost use Rattle.std.specs.Prelude.{◌≡◌, ◌↔◌, IfOk, IsTrue};
ghost use Rattle.cv_lex.specs.Shapes.{IsName};

use cv_token::Text;
use std::alloc::{AllocError, Global};
use std::marker::Model;

/// The text of a name: a letter of ASCII or `_`, and then letters, digits and `_`. Contracts see it as the list of its bytes.
#[derive(Drop)]
pub struct NameText {
    text: Text,
}

impl Model for NameText {
    ghost use Rattle.std.specs.Prelude.{ℕ, List};
    ghost use Rattle.std.specs.Coded.{coded_list, coded_ℕ};
    ghost use Rattle.cv_lex.specs.Shapes.{IsName};

    ghost Value = { List ℕ };

    ghost coded = { coded_list coded_ℕ };

    ghost view = { λ n. n.text };

    ghost invariant = { λ n. IsName n.text };
}

impl NameText {
    /// The name that a text is; it takes no memory.
    pub fn new(text: Text) -> NameText
        requires { IsName text }
        ensures { result ≡ text }
    {
        NameText { text }
    }

    /// The text of the name.
    pub fn as_text(&self) -> &Text
        ensures name { IsName self.now }
        ensures text { result.now ≡ self.now }
    {
        &self.text
    }

    /// The bytes as a `&str`.
    pub fn as_str(&self) -> &str
        ensures name { IsName self.now }
        ensures text { result.now ≡ self.now }
    {
        self.text.as_str()
    }

    /// An equal name of its own.
    pub fn copy(&self, alloc: Global) -> Result<NameText, AllocError>
        ensures { IfOk result (λ name. name ≡ self.now) }
    {
        let text = self.text.copy(alloc)?;
        Ok(NameText { text })
    }

    /// Whether both have the same letters.
    pub fn equals(&self, other: &NameText) -> bool
        ensures { IsTrue result ↔ (self.now ≡ other.now) }
    {
        self.text.equals(&other.text)
    }
}
