//! How a command ends.
ghost use Rattle.std.specs.Prelude.{◌≡◌};
ghost use Rattle.cgm_base.specs.Status.{code_of};

/// How a command ended.
#[derive(Clone, Copy, Debug, PartialEq, Eq)]
pub enum Status {
    /// The command did all that it does.
    Done,
    /// There is no realization.
    Unrealizable,
    /// The words are no command line.
    Usage,
    /// The model text is faulty.
    Text,
    /// The text of the earlier realization is faulty.
    Earlier,
    /// A counted quantity passes its limit.
    Limit,
    /// The certificate is faulty, or an entry of it is refused.
    Certificate,
    /// The budget is spent, or a certificate leaves open which realization is least.
    Open,
    /// A file can't be read.
    Read,
    /// A file or the output can't be written.
    Write,
    /// There is no memory.
    Memory,
}

impl Status {
    /// The program's exit status, 0 to 10 in the order of the variants.
    pub fn code(self) -> u8
        ensures { result ≡ code_of self }
    {
        match self {
            Status::Done => 0,
            Status::Unrealizable => 1,
            Status::Usage => 2,
            Status::Text => 3,
            Status::Earlier => 4,
            Status::Limit => 5,
            Status::Certificate => 6,
            Status::Open => 7,
            Status::Read => 8,
            Status::Write => 9,
            Status::Memory => 10,
        }
    }
}
