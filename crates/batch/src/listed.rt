//! What a text may list.

use crate::transfer::Place;

/// A thing that a text may list, by a line of a word and the numbers of two places.
///
/// The one reader of such texts is [`read_list`](crate::read_list), and the one writer is
/// [`write_list`](crate::write_list).
pub trait Listed: Copy {
    ghost use Rattle.std.specs.Prelude.{◌≡◌, ◌≢◌, ℕ, List, ◌++◌, IfSome, IfNone};
    ghost use Rattle.batch.specs.Lists.{Form};

    /// What the word of a line says.
    type Word: Copy;

    /// How a text lists them.
    ghost form: { Form Self };

    /// The bytes of a word.
    ghost spelling: { Self.Word → List ℕ };

    /// What stands before the count.
    fn heading() -> &'static str
        ensures { result.now ≡ form.heading };

    /// The word that a text begins with, and the rest. Where the text begins with the word of some
    /// thing, that is the one, and the same rest is after it.
    fn read_word(text: &[u8]) -> Option<(Self::Word, &[u8])>
        ensures some { IfSome result (λ x. text.now ≡ spelling x.0 ++ x.1.now) }
        ensures rest { IfSome result (λ x.
            (thing : Self) (rest : List ℕ) → text.now ≡ form.first_word thing ++ rest
            → x.1.now ≡ rest) }
        ensures none { IfNone result (
            (thing : Self) (rest : List ℕ) → text.now ≢ form.first_word thing ++ rest) };

    /// The thing that a word and two places tell.
    fn of(word: Self::Word, first: Place, second: Place) -> Self
        ensures word { form.first_word result ≡ spelling word }
        ensures first { form.first result ≡ first }
        ensures second { form.second result ≡ second };

    /// The word that its line begins with.
    fn word(&self) -> &'static str
        ensures { result.now ≡ form.first_word self.now };

    /// The places that its line names.
    fn places(&self) -> (Place, Place)
        ensures { result ≡ (form.first self.now, form.second self.now) };
}
