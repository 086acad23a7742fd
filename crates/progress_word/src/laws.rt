//! The law of the progress word. It makes no call.

ghost use Rattle.progress_word.specs.Rule.{KeepsRule, MakesRule, HasNoOther};

/// The rule of the word holds once the word is made, and after each further step. Where it holds,
/// and one view has all parts, all others are absorbed, and the word is what it was raised to from
/// that view.
pub fn rule()
    ensures made { MakesRule }
    ensures kept { KeepsRule }
    ensures whole { HasNoOther }
{}
