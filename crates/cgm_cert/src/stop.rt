//! Why a certificate isn't read.
ghost use Rattle.std.specs.Prelude.{◌≡◌};
ghost use Rattle.cgm_cert.specs.Words.{certificate_word};

/// What is wrong with a line of a certificate.
#[derive(Clone, Copy, Debug, PartialEq, Eq)]
pub enum CertKind {
    /// Line 1 isn't the header, or the text is empty.
    Header,
    /// The line is that of no entry.
    Entry,
    /// The last line lacks its line feed.
    Unfinished,
}

impl CertKind {
    /// The kind's word in a fault line.
    pub fn word(self) -> &'static str
        ensures { result.now ≡ certificate_word self }
    {
        match self {
            CertKind::Header => "header",
            CertKind::Entry => "entry",
            CertKind::Unfinished => "unfinished",
        }
    }
}

/// Why a certificate isn't read.
#[derive(Clone, Copy, Debug, PartialEq, Eq)]
pub enum CertStop {
    /// The first faulty line, numbered from 1, and what is wrong with it.
    Bad { line: u64, kind: CertKind },
    /// There is no memory for the entries.
    Memory,
}
