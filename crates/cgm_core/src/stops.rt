//! Why an event isn't taken.

/// Why an event, or a list of events, isn't taken.
#[derive(Drop)]
pub enum CoreStop {
    /// The event at this place, from 1, isn't allowed after those before it.
    Illegal { place: u64 },
    /// There is no memory.
    Memory,
}
