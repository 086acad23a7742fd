ghost use Rattle.std.specs.Prelude.{◌≡◌};
ghost use Rattle.drive_answers.specs.Ways.{how_many, names_of};

/// The names of the ports of a rack's switches.
#[derive(Clone, Copy)]
pub struct PortNames<'a> {
    /// The port's name of the one switch, or of the first of two.
    pub port: &'a str,
    /// The port's name of the second switch, where there are two.
    pub port_b: Option<&'a str>,
}

impl<'a> PortNames<'a> {
    /// How many there are.
    pub fn count(self) -> usize
        ensures { result ≡ how_many (names_of self.entry) }
    {
        match self.port_b {
            Some(_) => 2,
            None => 1,
        }
    }
}
