//! What the passes of a turn know, and the rule of its table.

use atomic_table::TableRule;
use cgm_atom::{Entry, Problem, Seq};
use cgm_log::Log;
use std::snapshot::Snapshot;

/// What the first pass keeps of a pass that was joined to it. No value of it is made.
pub struct Joined {
    pub number: u64,
    pub seen: Seq<Entry>,
    /// What the first had seen when it was joined.
    pub before: Seq<Entry>,
    pub landed: Seq<Entry>,
}

/// What a pass knows. No value of it is made: it stands in proofs alone.
pub struct View {
    /// It was joined to the first pass.
    pub is_spent: bool,
    pub number: u64,
    pub problem: Problem,
    /// The entries that it was told, which are a front of the log.
    pub seen: Seq<Entry>,
    /// Its own entries in the log.
    pub landed: Seq<Entry>,
    /// The trades that it began, and those of the passes joined to it.
    pub begun: u64,
    pub begun_by_joined: u64,
    /// It, and the passes joined to it.
    pub members: u64,
    pub ticket: Option<u64>,
    /// While it has the turn, the log as it found it.
    pub held: Option<Seq<Entry>>,
    /// Of the first: how many passes were split from it, how many of them aren't joined yet, and
    /// those that are.
    pub splits: u64,
    pub out: u64,
    pub joined: Seq<Joined>,
}

/// The rule of the table. The log waits in slot 0. Word 0 is the ticket that is served, and word 1
/// the next ticket.
pub struct Served;

impl TableRule<Option<Log>, View, Snapshot<Log>> for Served {
    ghost use Rattle.cgm_turn.specs.Rule.{IsTurnTable};
    ghost use Rattle.cgm_turn.specs.Views.{newcomer};

    ghost holds = { λ _. IsTurnTable };

    ghost first = { λ key. newcomer key.value.problem };
}
