ghost use Rattle.std.specs.Prelude.{◌≡◌, ◌↔◌, ◌++◌, IfOk, IsTrue};
ghost use Rattle.std.specs.Str.{bytes_eq};
ghost use Rattle.command_words.specs.Jobs.{input_name};

use std::alloc::{AllocError, Global};
use std::marker::Model;

/// A text of its own, as one argument of the command line. Contracts see its bytes.
pub struct Text {
    text: String,
}

// Said once, so that no function that lets go of one has to say it again.
impl Drop for Text {
    fn drop(self) {
        let Text { text: _ } = self;
    }
}

impl Model for Text {
    ghost use Rattle.std.specs.Prelude.{List, ℕ, string_bytes};

    ghost Value = { List ℕ };

    ghost view = { λ t. string_bytes t.text };
}

impl Text {
    /// A copy of the text.
    pub fn of(alloc: Global, text: &str) -> Result<Text, AllocError>
        ensures { IfOk result (λ t. t ≡ text.now) }
    {
        let text = String::from_str(alloc, text)?;
        Ok(Text { text })
    }

    /// The text with an ending.
    pub(crate) fn with_ending(&self, alloc: Global, ending: &str) -> Result<Text, AllocError>
        ensures { IfOk result (λ t. t ≡ self.now ++ ending.now) }
    {
        let mut text = String::from_str(alloc, self.as_str())?;
        text.push_str(ending)?;
        Ok(Text { text })
    }

    /// The text.
    pub fn as_str(&self) -> &str
        ensures { result.now ≡ self.now }
    {
        self.text.as_str()
    }

    /// Whether the text is the name of a file that stands for standard input, `-`.
    pub fn is_input(&self) -> bool
        ensures is { IsTrue result ↔ (self.now ≡ input_name) }
        ensures test { result ≡ bytes_eq self.now input_name }
    {
        self.as_str() == "-"
    }
}
