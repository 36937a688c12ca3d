//! Why rules aren't encoded.

/// Why rules aren't encoded.
#[derive(Clone, Copy, Debug, PartialEq, Eq)]
pub enum EncodeStop {
    /// The measure of a comparison of the rule with this number passes 4·10^18. It is the first such rule.
    Row { rule: u32 },
    /// Memory ran out.
    Memory,
}
