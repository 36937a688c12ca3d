//! Who searches in the runs of cases.

/// Who searches where a program is run on cases.
#[derive(Clone, Copy, PartialEq, Eq)]
pub enum Searcher {
    /// One worker, which waits for nobody, whatever the words say. Wrong cases and broken texts are
    /// judged by it alone.
    Alone,
    /// As many workers as the words say.
    Crew,
}
