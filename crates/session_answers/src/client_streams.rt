ghost use Rattle.std.specs.Prelude.{◌≡◌, ℕ, List, [], Option, IfOk, IfErr, true};
ghost use Rattle.session_answers.specs.HostAnswers.{KnownClients};
ghost use Rattle.session_answers.specs.Passes.{GivenPasses, all_admitted, given_to};

use crate::threads_started::ThreadsStarted;
use std::io;
use std::io::{Read, Write};

/// What opens and closes the two files of each client of a host, and knows its name.
pub trait ClientStreams: Sync {
    /// What a client says is read from this.
    type Reader: Read + Send + Drop;
    /// What a client is told is written to this.
    type Writer: Write + Send + Drop;
    /// What is left of a writer that was closed.
    type Receipt: Send + Drop;
    /// What gives passes. No thread has it.
    type Desk;
    /// Lets the files of one client be opened, once.
    type Pass: Send + Drop;

    /// What is known of the clients.
    ghost known: { Self → KnownClients };

    /// The bytes of the writer of which this is left, where they are known.
    ghost received: { Self.Receipt → Option (List ℕ) };

    /// The pass is that of the client of this number.
    ghost admits: { Self → ℕ → Self.Pass → Type 0 };

    /// The passes that the desk gave, and which of them were used.
    ghost passes: { Self.Desk → GivenPasses };

    /// How many clients there are.
    fn clients(&self) -> usize
        ensures { result ≡ (known self.now).clients };

    /// The name of the client of this number.
    fn name(&self, client: usize) -> &str
        ensures { result.now ≡ (known self.now).named client };

    /// Gives a pass for the files of a client, as long as none was used.
    fn pass(&self, desk: &mut Self::Desk, client: usize) -> Self::Pass
        requires { (passes desk.old).admitted ≡ [] }
        ensures admits { admits self.now client result }
        ensures given { passes desk.new
            ≡ given_to ((known self.now).named client) (passes desk.old) };

    /// Takes down that all passes were used. No other is given after that.
    fn admit(&self, desk: &mut Self::Desk)
        ensures { passes desk.new ≡ all_admitted (passes desk.old) };

    /// Opens the files of a client by its pass, once there is a thread for each client. It may wait
    /// until the client has opened them too.
    fn open(
        &self,
        there: ThreadsStarted,
        client: usize,
        pass: Self::Pass,
    ) -> io::Result<(Self::Reader, Self::Writer)>
        requires there { there.threads ≡ (known self.now).clients }
        requires pass { admits self.now client pass }
        ensures reader { IfOk result (λ ends.
            Self.Reader.remaining ends.0 ≡ (known self.now).says client) }
        ensures writer { IfOk result (λ ends.
            Self.Writer.contents ends.1 ≡ (known self.now).contains client) }
        ensures may_fail { IfErr result (λ error. (known self.now).may_fail client ≡ true) };

    /// Closes the writer of a client.
    fn close(&self, writer: Self::Writer) -> Self::Receipt
        ensures { received result ≡ Self.Writer.contents writer };
}
