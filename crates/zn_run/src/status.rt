// How a run ended, as a status that a program exits with.
ghost use Rattle.std.specs.Prelude.{◌≡◌};
ghost use Rattle.zn_run.specs.Statuses.{code_of};

/// How a run ended. `Usage` and `Directory` come before one.
#[derive(Clone, Copy, Debug, PartialEq, Eq)]
pub enum Status {
    /// All lines were carried out.
    Done,
    /// The command line does not fit.
    Usage,
    /// The script does not fit.
    Script,
    /// The directory does not fit.
    Directory,
    /// The host failed.
    HostFault,
    /// The script could not be read to its end.
    ReadFault,
    /// The replies could not be written.
    WriteFault,
    /// There was no memory.
    Memory,
}

impl Status {
    /// The exit status.
    pub fn code(self) -> u8
        ensures { result ≡ code_of self }
    {
        match self {
            Status::Done => 0,
            Status::Usage => 2,
            Status::Script => 3,
            Status::Directory => 4,
            Status::HostFault => 5,
            Status::ReadFault => 6,
            Status::WriteFault => 7,
            Status::Memory => 8,
        }
    }
}
