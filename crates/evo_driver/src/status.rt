ghost use Rattle.std.specs.Prelude.{◌≡◌};
ghost use Rattle.evo_driver.specs.Status.{code_of};

/// How a job ended.
#[derive(Clone, Copy, Debug, PartialEq, Eq)]
pub enum Status {
    /// The job is done.
    Done,
    /// The run's ticks are spent.
    OutOfTicks,
    /// The words are no command.
    NotUnderstood,
    /// A named file is not accepted.
    NotAccepted,
    /// The new library breaks a rule against the old one.
    BreaksRules,
    /// A file could not be read.
    NotRead,
    /// A write failed.
    NotWritten,
    /// Memory was wanting.
    Memory,
    /// A named file, or the interface of its library, has too many bytes.
    TooLong,
}

impl Status {
    /// The number that the program ends with.
    pub fn code(&self) -> u8
        ensures { result ≡ code_of self.now }
    {
        match self {
            Status::Done => 0,
            Status::OutOfTicks => 2,
            Status::NotUnderstood => 3,
            Status::NotAccepted => 4,
            Status::BreaksRules => 5,
            Status::NotRead => 6,
            Status::NotWritten => 7,
            Status::Memory => 8,
            Status::TooLong => 11,
        }
    }
}
