//! Logs.
ghost use Rattle.std.specs.Prelude.{◌≡◌, ◌+◌, ◌<◌, ◌≤◌, [], ◌++◌, drop, false, length, take, IfOk, OnOk, OnErr, IfErr, IfSome};
ghost use Rattle.std.specs.List.{All};
ghost use Rattle.std.specs.Vec.{vec_capacity, vec_len};
ghost use Rattle.cgm_atom.specs.Acceptance.{IsAccepted};
ghost use Rattle.cgm_atom.specs.Instance.{IsSolution};
ghost use Rattle.cgm_atom.specs.LogState.{state_of};
ghost use Rattle.cgm_atom.specs.Placing.{HintsCanBePlaced, all_placed};
ghost use Rattle.cgm_atom.specs.Ranges.{IsPrintable};
ghost use Rattle.cgm_step.specs.Indexing.{IsLogIndexOf};
ghost use Rattle.cgm_log.specs.Landing.{IsProperBatch, fate_of, kept_candidate, with_landed};
ghost use Rattle.cgm_log.specs.LogBook.{IsLog};
ghost use Rattle.cgm_log.specs.Trading.{IsAnswer, news_of};

use crate::batches::{Batch, Refund, Traded};
use crate::judging::{Judged, judge};
use cgm_atom::{Entry, Problem, Seq, copy_entries, place_all};
use cgm_base::OutOfMemory;
use cgm_step::{IndexedLog, LogIndex};
use std::alloc::Global;
use std::marker::Model;

/// The entries that workers have made for a problem, each accepted after those before it.
/// A log only grows. A certificate can write each of its entries.
#[derive(Drop)]
pub struct Log {
    alloc: Global,
    problem: Problem,
    entries: Vec<Entry>,
    index: LogIndex,
}

impl Model for Log {
    ghost use Rattle.cgm_log.specs.LogBook.{LogBook};

    ghost Value = { LogBook };

    ghost use Rattle.cgm_log.specs.LogParts.{IsKeptLog, log_book};

    ghost view = { log_book };

    ghost invariant = { IsKeptLog };
}

impl Log {
    /// A log of the problem without entries. Takes no memory.
    pub fn new(alloc: Global, problem: Problem) -> Log
        ensures problem { result.problem ≡ problem }
        ensures entries { result.entries ≡ [] }
    {
        problem.recall_well_formed();
        Log {
            alloc,
            problem,
            entries: Vec::new(alloc),
            index: LogIndex::new(alloc),
        }
    }

    /// What holds of every log, for the proof of a caller.
    pub fn recall_log(&self)
        ensures { IsLog self.now }
    {
        let _count = self.entries.len();
    }

    /// The problem.
    pub fn problem(&self) -> &Problem
        ensures problem { result.now ≡ self.now.problem }
        ensures valid { IsLog self.now }
    {
        &self.problem
    }

    /// The entries, in their order.
    pub fn entries(&self) -> &[Entry]
        ensures entries { result.now ≡ self.now.entries }
        ensures valid { IsLog self.now }
    {
        self.entries.as_slice()
    }

    /// Gives the entries, in their order. Takes no memory.
    pub fn into_entries(self) -> Seq<Entry>
        ensures { result ≡ self.entries }
    {
        let Log { entries, .. } = self;
        Seq::of(entries)
    }

    /// The entries with their index.
    pub fn indexed(&self) -> IndexedLog<'_>
        ensures state { result ≡ state_of self.now.entries }
        ensures valid { IsLog self.now }
    {
        IndexedLog::of(self.entries.as_slice(), &self.index)
    }

    /// Whether a lemma without atoms stands in the log, which is then its last entry.
    pub fn closed(&self) -> bool
        ensures closed { result ≡ (state_of self.now.entries).closed }
        ensures valid { IsLog self.now }
    {
        self.indexed().is_closed()
    }

    /// Lands the batch of a worker that has seen the first `seen` entries. Others may have added
    /// more since then, which are the answer's news.
    ///
    /// On a closed log nothing is added. Else the lemmas are added in their order, with `Own(i)` as
    /// the entry where lemma i lands, and then the candidate, if it is less than the last best or
    /// there is none. Without memory the log is as before.
    ///
    /// Condition: there are so many entries, and the batch is proper after them.
    pub fn trade(&mut self, seen: u64, batch: Batch) -> Result<Traded, Refund>
        requires seen { seen ≤ length self.old.entries }
        requires proper { IsProperBatch self.old.problem (take seen self.old.entries) batch }
        ensures answer { IfOk result (λ t. IsAnswer self.old.problem self.old.entries batch t) }
        ensures news { IfOk result (λ t. news_of t ≡ drop seen self.old.entries) }
        ensures landed { OnOk result
            (self.new.entries ≡ with_landed self.old.problem self.old.entries batch) }
        ensures problem { self.new.problem ≡ self.old.problem }
        ensures refund { OnErr result (self.new ≡ self.old) }
        ensures batch { IfErr result (λ r. r.batch ≡ batch) }
    {
        let news = match self.copy_from(seen) {
            Ok(news) => news,
            Err(_) => return Err(Refund { batch }),
        };
        if self.closed() {
            return Ok(Traded::Closed { news });
        }
        match self.judge(&batch) {
            Ok(judged) => self.land(news, judged, batch),
            Err(_) => Err(Refund { batch }),
        }
    }

    /// Adds the lemmas of a batch, and what is kept of its candidate, to a log that isn't closed.
    fn land(&mut self, news: Seq<Entry>, judged: Judged, batch: Batch) -> Result<Traded, Refund>
        requires still_open { (state_of self.old.entries).closed ≡ false }
        requires proper { IsProperBatch self.old.problem self.old.entries batch }
        requires kept { judged.kept.items
            ≡ kept_candidate self.old.problem (state_of self.old.entries) batch.by batch.candidate }
        requires fate { judged.fate
            ≡ fate_of self.old.problem (state_of self.old.entries) batch.candidate }
        ensures answer { IfOk result (λ t. IsAnswer self.old.problem self.old.entries batch t) }
        ensures news { IfOk result (λ t. news_of t ≡ news) }
        ensures landed { OnOk result
            (self.new.entries ≡ with_landed self.old.problem self.old.entries batch) }
        ensures problem { self.new.problem ≡ self.old.problem }
        ensures unchanged { OnErr result (self.new ≡ self.old) }
        ensures batch { IfErr result (λ r. r.batch ≡ batch) }
    {
        let first = self.count() + 1;
        let Judged { fate, kept } = judged;
        let Batch {
            by,
            lemmas,
            candidate,
        } = batch;
        match self.append(lemmas.into_inner(), kept) {
            Ok(()) => Ok(Traded::Landed { news, first, fate }),
            Err(lemmas) => Err(Refund {
                batch: Batch {
                    by,
                    lemmas: Seq::of(lemmas),
                    candidate,
                },
            }),
        }
    }

    /// How many entries there are.
    fn count(&self) -> u64
        ensures count { result ≡ length self.now.entries }
        ensures valid { IsLog self.now }
    {
        self.entries.len() as u64
    }

    /// Copies of the entries after the first `seen`.
    fn copy_from(&self, seen: u64) -> Result<Seq<Entry>, OutOfMemory>
        requires { seen ≤ length self.now.entries }
        ensures { IfOk result (λ news. news ≡ drop seen self.now.entries) }
    {
        let (_, news) = self.entries.as_slice().split_at(seen as usize);
        copy_entries(self.alloc, news)
    }

    /// What becomes of the batch's candidate.
    fn judge(&self, batch: &Batch) -> Result<Judged, OutOfMemory>
        requires { IfSome batch.now.candidate (IsSolution self.now.problem) }
        ensures fate { IfOk result
            (λ j. j.fate
            ≡ fate_of self.now.problem (state_of self.now.entries) batch.now.candidate) }
        ensures kept { IfOk result (λ j. j.kept.items ≡ kept_candidate self.now.problem (state_of
            self.now.entries) batch.now.by batch.now.candidate) }
    {
        judge(
            self.alloc,
            &self.problem,
            &self.indexed(),
            batch.by,
            &batch.candidate,
        )
    }

    /// Adds lemmas, each placed, and then what is kept of a candidate, to the entries after which they
    /// are accepted. Without memory the lemmas come back as they were.
    fn append(&mut self, lemmas: Vec<Entry>, kept: Vec<Entry>) -> Result<(), Vec<Entry>>
        requires hints { All (HintsCanBePlaced (length self.old.entries)) lemmas.items }
        requires no_hints { all_placed (length self.old.entries) kept.items ≡ kept.items }
        requires accepted { IsAccepted self.old.problem (self.old.entries
            ++ (all_placed (length self.old.entries) lemmas.items ++ kept.items)) }
        requires printable { All IsPrintable
            (all_placed (length self.old.entries) lemmas.items ++ kept.items) }
        ensures ok { OnOk result (self.new ≡ record self.old {
          entries = self.old.entries
              ++ (all_placed (length self.old.entries) lemmas.items ++ kept.items);
        }) }
        ensures err { OnErr result (self.new ≡ self.old) }
        ensures lemmas { IfErr result (λ l. l.items ≡ lemmas.items) }
    {
        append_placed(self.alloc, &mut self.entries, &mut self.index, lemmas, kept)
    }
}

/// Moves lemmas, each placed, and then what is kept of a candidate, behind the entries, and adds them
/// to the index. Without memory the lemmas come back, and the entries and the index stay.
fn append_placed(
    alloc: Global,
    entries: &mut Vec<Entry>,
    index: &mut LogIndex,
    lemmas: Vec<Entry>,
    kept: Vec<Entry>,
) -> Result<(), Vec<Entry>>
    requires own { IsLogIndexOf index.old entries.old.items }
    requires hints { All (HintsCanBePlaced (length entries.old.items)) lemmas.items }
    requires no_hints { all_placed (length entries.old.items) kept.items ≡ kept.items }
    ensures own { IsLogIndexOf index.new entries.new.items }
    ensures ok { OnOk result (entries.new.items ≡ entries.old.items
        ++ (all_placed (length entries.old.items) lemmas.items ++ kept.items)) }
    ensures err { OnErr result (entries.new.items ≡ entries.old.items) }
    ensures lemmas { IfErr result (λ l. l.items ≡ lemmas.items) }
{
    let before = entries.len() as u64;
    let count = lemmas.len();
    let mut landing = lemmas;
    if let Err(_) = make_room(entries, index, &mut landing, kept) {
        landing.truncate(count);
        return Err(landing);
    }
    let mut landing = place_all(alloc, landing, before);
    match entries.append(&mut landing) {
        Ok(()) => Ok(()),
        Err(_) => unreachable!(),
    }
}

/// Puts what is kept of a candidate behind the lemmas, makes room for them all, and adds them to the
/// index. Without memory the lemmas stay in front, and the index is as it was.
fn make_room(
    entries: &mut Vec<Entry>,
    index: &mut LogIndex,
    landing: &mut Vec<Entry>,
    kept: Vec<Entry>,
) -> Result<(), OutOfMemory>
    requires own { IsLogIndexOf index.old entries.old.items }
    ensures entries { entries.new.items ≡ entries.old.items }
    ensures room { OnOk result
        (vec_len entries.new + vec_len landing.new ≤ vec_capacity entries.new) }
    ensures landing { OnOk result (landing.new.items ≡ landing.old.items ++ kept.items) }
    ensures indexed { OnOk result
        (IsLogIndexOf index.new (entries.old.items ++ (landing.old.items ++ kept.items))) }
    ensures front { OnErr result
        (take (length landing.old.items) landing.new.items ≡ landing.old.items) }
    ensures unchanged { OnErr result (index.new ≡ index.old) }
{
    let mut kept = kept;
    landing.append(&mut kept)?;
    entries.try_reserve(landing.len())?;
    index.append(landing.as_slice())
}
