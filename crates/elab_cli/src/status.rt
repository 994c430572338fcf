/// How the program ends. The number of a status is the program's exit status.
#[derive(Clone, Copy, Debug, PartialEq, Eq)]
pub enum Status {
    /// The report was complete and went out.
    Done = 0,
    /// The report was not complete and went out.
    Open = 1,
    /// The text is in error, and the line that says so went out.
    FileError = 2,
    /// The words ask for nothing that the program does, and the usage line went out.
    Usage = 3,
    /// The files failed.
    FilesFault = 4,
    /// The input failed.
    InputFault = 5,
    /// The output failed.
    OutputFault = 6,
    /// Memory ran out.
    NoMemory = 7,
    /// The input is too long.
    InputTooLong = 8,
    /// The file is not there.
    Missing = 9,
}

impl Status {
    ghost use Rattle.std.specs.Prelude.{◌≡◌};
    ghost use Rattle.elab_cli.specs.Status.{number_of};

    /// The exit status.
    pub fn number(self) -> u8
        ensures { result ≡ number_of self }
    {
        self as u8
    }
}
