//! One case's run.
use crate::case::{Call, Case, FailingCall, Piece, Run, Step};
use crate::comparison::{Ended, first_difference};
use crate::folder::{Folder, LARGE};
use crate::telling::{Told, tell_difference};
use cgm_base::{OutOfMemory, Status};
use cgm_shelf::{MemShelf, MemSink};
use std::alloc::Global;
use std::mem;

/// Where a case stands: its files, and what the next run's shelf and sink do.
#[derive(Drop)]
struct Scene {
    alloc: Global,
    folder: Folder,
    piece: Piece,
    failing_reads: Vec<u64>,
    failing_writes: Vec<u64>,
    failing_prints: Vec<u64>,
}

/// Runs a case to its first difference, and tells that one; none where the case agrees.
pub(crate) fn run_case<P: Fn(Global, &[String], &mut MemShelf, &mut MemSink) -> Status>(
    alloc: Global,
    program: &P,
    case: &Case<'_>,
) -> Result<Option<Told>, OutOfMemory>
    requires { P.IsAlwaysCallable program.now }
{
    let mut scene = Scene::new(alloc);
    let told = scene.take_steps(program, case.steps.as_slice());
    discard(scene);
    told
}

/// Gives the memory of a scene back.
fn discard(_scene: Scene) {}

/// Gives the memory of a shelf back.
fn discard_shelf(_shelf: MemShelf) {}

/// Gives the memory of a sink back.
fn discard_sink(_sink: MemSink) {}

fn add_number(numbers: &mut Vec<u64>, number: u64) -> Result<(), OutOfMemory> {
    numbers.push(number)?;
    Ok(())
}

impl Scene {
    fn new(alloc: Global) -> Scene {
        Scene {
            alloc,
            folder: Folder::new(alloc),
            piece: Piece { size: LARGE },
            failing_reads: Vec::new(alloc),
            failing_writes: Vec::new(alloc),
            failing_prints: Vec::new(alloc),
        }
    }

    /// Takes steps up to the first difference, and tells that one.
    fn take_steps<P: Fn(Global, &[String], &mut MemShelf, &mut MemSink) -> Status>(
        &mut self,
        program: &P,
        steps: &[Step<'_>],
    ) -> Result<Option<Told>, OutOfMemory>
        requires { P.IsAlwaysCallable program.now }
    {
        for step in steps {
            match self.take_step(program, step) {
                Ok(None) => {}
                told => return told,
            }
        }
        Ok(None)
    }

    fn take_step<P: Fn(Global, &[String], &mut MemShelf, &mut MemSink) -> Status>(
        &mut self,
        program: &P,
        step: &Step<'_>,
    ) -> Result<Option<Told>, OutOfMemory>
        requires { P.IsAlwaysCallable program.now }
    {
        match step {
            Step::Run(run) => return self.play(program, run),
            Step::File(file) => self.folder.set(file.name, file.bytes.as_slice())?,
            Step::Piece(piece) => self.piece = *piece,
            Step::Fail(call) => self.fail(*call)?,
            Step::Alone | Step::Together => {}
        }
        Ok(None)
    }

    /// Has a call of the next run fail. A shelf in memory numbers starts and appends together, and a
    /// run starts one file at most, before it appends to it. So the start has number 1, there is no
    /// other one that could fail, and append K has number K + 1.
    fn fail(&mut self, failing: FailingCall) -> Result<(), OutOfMemory> {
        let number = failing.number;
        match failing.call {
            Call::Read => add_number(&mut self.failing_reads, number),
            Call::Start => {
                if number == 1 {
                    add_number(&mut self.failing_writes, 1)
                } else {
                    Ok(())
                }
            }
            Call::Write => add_number(&mut self.failing_writes, number.saturating_add(1)),
            Call::Print => add_number(&mut self.failing_prints, number),
        }
    }

    /// Runs the program over the folder's files, and tells what differs first.
    fn play<P: Fn(Global, &[String], &mut MemShelf, &mut MemSink) -> Status>(
        &mut self,
        program: &P,
        run: &Run,
    ) -> Result<Option<Told>, OutOfMemory>
        requires { P.IsAlwaysCallable program.now }
    {
        self.folder.add_names(run.words.as_slice())?;
        let mut shelf = self.next_shelf();
        let told = self.play_over(program, run, &mut shelf);
        discard_shelf(shelf);
        told
    }

    /// The shelf of the next run, with no files.
    fn next_shelf(&mut self) -> MemShelf {
        let reads = mem::replace(&mut self.failing_reads, Vec::new(self.alloc));
        let writes = mem::replace(&mut self.failing_writes, Vec::new(self.alloc));
        MemShelf::new(self.alloc, self.piece.size, reads, writes)
    }

    /// The sink of the next run.
    fn next_sink(&mut self) -> MemSink {
        let prints = mem::replace(&mut self.failing_prints, Vec::new(self.alloc));
        MemSink::new(self.alloc, self.piece.size, prints)
    }

    /// Puts the folder's files onto the shelf, and runs the program over it.
    fn play_over<P: Fn(Global, &[String], &mut MemShelf, &mut MemSink) -> Status>(
        &mut self,
        program: &P,
        run: &Run,
        shelf: &mut MemShelf,
    ) -> Result<Option<Told>, OutOfMemory>
        requires { P.IsAlwaysCallable program.now }
    {
        self.folder.put_all(shelf)?;
        let mut sink = self.next_sink();
        let status = program(self.alloc, run.words.as_slice(), shelf, &mut sink);
        let told = self.judge(run, status, sink.written(), shelf);
        discard_sink(sink);
        told
    }

    /// Tells what differs first of a run. Where nothing does, the folder takes what the run left.
    fn judge(
        &mut self,
        run: &Run,
        status: Status,
        printed: &[u8],
        shelf: &MemShelf,
    ) -> Result<Option<Told>, OutOfMemory> {
        match self.difference(run, status, printed, shelf) {
            Ok(None) => {
                self.folder.take_all(shelf)?;
                Ok(None)
            }
            told => told,
        }
    }

    fn difference(
        &self,
        run: &Run,
        status: Status,
        printed: &[u8],
        shelf: &MemShelf,
    ) -> Result<Option<Told>, OutOfMemory> {
        let ended = Ended {
            status,
            printed,
            names: self.folder.names(),
            before: &self.folder,
            after: shelf,
        };
        match first_difference(run, &ended) {
            Some(found) => Ok(Some(tell_difference(self.alloc, run, &ended, found)?)),
            None => Ok(None),
        }
    }
}
