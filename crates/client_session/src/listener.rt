ghost use Rattle.std.specs.Prelude.{◌≡◌, ℕ, List, [], Some, None};
ghost use Rattle.refusals.specs.declared.refusal.Refusal.{Refusal};
ghost use Rattle.client_session.specs.Listening.{ListenerLog, Tells};

use refusals::Refusal;

/// Who hears beside a session's replies what was said, and what of it is refused, and why.
///
/// Contracts see what it has told, as the contents of a writer, and what may be told of a refusal.
pub trait Listener {
    // What it has told.
    ghost told: { Self → ListenerLog };

    // That these bytes may be told of a refusal.
    ghost may_tell: { Refusal → List ℕ → Type 0 };

    /// Lines were read that are answered next, each with its line feed: a command with the lines
    /// that belong to it, or a line that is no command. Nothing is told of them yet.
    fn on_lines(&mut self, text: &[u8])
        ensures { told self.new ≡ told self.old };

    /// What the last lines asked is refused, and the reply line that says so is written. Of this
    /// refusal, and of nothing else, something may be told now.
    fn on_refusal(&mut self, refusal: Refusal)
        ensures { Tells may_tell refusal (told self.old) (told self.new) };
}

/// A listener that tells nothing.
#[derive(Clone, Copy)]
pub struct NoListener;

impl Listener for NoListener {
    ghost told = { λ _. record { bytes = Some []; loan = None } };

    ghost may_tell = { λ _ bytes. bytes ≡ [] };

    fn on_lines(&mut self, _text: &[u8]) {}

    fn on_refusal(&mut self, _refusal: Refusal) {}
}
