ghost use Rattle.std.specs.Prelude.{◌≡◌, ◌<◌, [], IfOk, OnErr, length, map};

use crate::text::Text;
use std::alloc::{AllocError, Global};
use std::marker::Model;

/// Texts of their own, as arguments of the command line that stand for one thing each. Contracts
/// see the list of their bytes.
pub struct TextList {
    texts: Vec<Text>,
}

// Said once, so that no function that lets go of one has to say it again.
impl Drop for TextList {
    fn drop(self) {
        let TextList { texts: _ } = self;
    }
}

impl Model for TextList {
    ghost use Rattle.std.specs.Prelude.{List, ℕ};

    ghost Value = { List (List ℕ) };

    ghost view = { λ l. l.texts.items };
}

impl TextList {
    /// Copies of the texts, in their order.
    pub fn of(alloc: Global, texts: &[&str]) -> Result<TextList, AllocError>
        ensures list { IfOk result (λ list. list ≡ map (λ t. t.now) texts.now) }
        ensures memory { OnErr result (0 < length texts.now) }
    {
        let mut list = Vec::new(alloc);
        for text in texts {
            list.push(Text::of(alloc, *text)?)?;
        }
        Ok(TextList { texts: list })
    }

    /// The texts, in their order.
    pub fn as_slice(&self) -> &[Text]
        ensures { result.now ≡ self.now }
    {
        self.texts.as_slice()
    }
}
