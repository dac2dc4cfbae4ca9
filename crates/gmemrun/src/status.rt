//! What a run came to.

ghost use Rattle.std.specs.Prelude.{◌≡◌};
ghost use Rattle.gmemrun.specs.Statuses.{number_of};

/// What a run came to. Each has the number with which the program ends.
#[derive(Clone, Copy, Debug, PartialEq, Eq)]
pub enum Status {
    /// The source was read to its end, and the whole text was written.
    Ok,
    /// The bytes form no script, and the line that says so was written.
    BadScript,
    /// The words are none that the program knows.
    Usage,
    /// The source failed. Nothing was written.
    ReadFault,
    /// The sink failed. It has a front of the text or the line, and not all of it.
    WriteFault,
    /// Memory ran out. Nothing was written.
    NoMemory,
    /// The source has more bytes than a script, or a history, may have. Nothing was written.
    TooLong,
    /// The bytes are no history of version 1, and the line that says so was written.
    BadHistory,
}

impl Status {
    /// The number of the status, from 0.
    pub fn number(self) -> u8
        ensures { result ≡ number_of self }
    {
        match self {
            Status::Ok => 0,
            Status::BadScript => 1,
            Status::Usage => 2,
            Status::ReadFault => 3,
            Status::WriteFault => 4,
            Status::NoMemory => 5,
            Status::TooLong => 6,
            Status::BadHistory => 7,
        }
    }
}
