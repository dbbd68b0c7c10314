//! Gates and starters that note what passes them, and writers that count or fail.
use chord_crew::{Gate, PartRunner, Starter};
use chord_event::RunError;
use std::alloc::Global;
use std::io;
use std::io::{ErrorKind, Write};
use std::sync::atomic::{AtomicU64, Ordering};
use std::sync::{Mutex, Wait};

/// Eight places for a note, of which none is written yet.
fn eight_notes() -> [AtomicU64; 8] {
    [
        AtomicU64::new(99),
        AtomicU64::new(99),
        AtomicU64::new(99),
        AtomicU64::new(99),
        AtomicU64::new(99),
        AtomicU64::new(99),
        AtomicU64::new(99),
        AtomicU64::new(99),
    ]
}

/// The numbers in eight places for a note.
fn noted(notes: &[AtomicU64; 8]) -> [u64; 8] {
    let mut noted = [0; 8];
    for (place, note) in noted.iter_mut().zip(notes) {
        *place = note.load(Ordering::SeqCst);
    }
    noted
}

/// Blocks the first of two passes until the second has come, and notes the worker of each.
#[derive(Drop)]
pub struct PairGate {
    pub passes: AtomicU64,
    /// How many passes were not followed by another one in time.
    pub alone: AtomicU64,
    pub workers: [AtomicU64; 8],
}

impl PairGate {
    pub fn new() -> PairGate {
        PairGate {
            passes: AtomicU64::new(0),
            alone: AtomicU64::new(0),
            workers: eight_notes(),
        }
    }

    /// Whether the pass after this one came in time.
    fn is_followed(&self, pass: u64) -> bool {
        for _turn in 0..1_000_000_000u64 {
            if self.passes.load(Ordering::SeqCst) > pass.wrapping_add(1) {
                return true;
            }
            std::hint::spin_loop();
        }
        false
    }
}

impl Gate for PairGate {
    fn pass(&self, worker: u32, _part: u32) {
        let pass = self.passes.fetch_add(1, Ordering::SeqCst);
        if let Some(note) = self.workers.get((pass % 8) as usize) {
            note.store(worker as u64, Ordering::SeqCst);
        }
        if pass % 2 == 0 && !self.is_followed(pass) {
            self.alone.fetch_add(1, Ordering::SeqCst);
        }
    }
}

/// A writer that counts the bytes that it takes. Others can see the count.
#[derive(Drop)]
pub struct Counting<'a> {
    pub taken: &'a AtomicU64,
}

impl Write for Counting<'_> {
    fn write(&mut self, buf: &[u8]) -> io::Result<usize> {
        self.taken.fetch_add(buf.len() as u64, Ordering::SeqCst);
        Ok(buf.len())
    }

    fn flush(&mut self) -> io::Result<()> {
        Ok(())
    }
}

/// Notes for each of the first eight passes its part, and how many bytes a writer has taken so far.
#[derive(Drop)]
pub struct SizeGate<'a> {
    taken: &'a AtomicU64,
    passes: AtomicU64,
    parts: [AtomicU64; 8],
    sizes: [AtomicU64; 8],
}

impl SizeGate<'_> {
    pub fn new<'a>(taken: &'a AtomicU64) -> SizeGate<'a> {
        SizeGate {
            taken,
            passes: AtomicU64::new(0),
            parts: eight_notes(),
            sizes: eight_notes(),
        }
    }

    /// How often the gate was passed.
    pub fn passes(&self) -> u64 {
        self.passes.load(Ordering::SeqCst)
    }

    /// The part of each of the first eight passes.
    pub fn parts(&self) -> [u64; 8] {
        noted(&self.parts)
    }

    /// How many bytes the writer had taken at each of the first eight passes.
    pub fn sizes(&self) -> [u64; 8] {
        noted(&self.sizes)
    }
}

impl Gate for SizeGate<'_> {
    fn pass(&self, _worker: u32, part: u32) {
        let pass = self.passes.fetch_add(1, Ordering::SeqCst);
        if let Some(note) = self.parts.get(pass as usize) {
            note.store(part as u64, Ordering::SeqCst);
        }
        if let Some(size) = self.sizes.get(pass as usize) {
            size.store(self.taken.load(Ordering::SeqCst), Ordering::SeqCst);
        }
    }
}

/// Counts the passes under a lock, for which it holds a wait handle.
#[derive(Drop)]
pub struct CountGate<T> {
    pub rt: T,
    pub passes: Mutex<u32>,
}

impl<T: Wait> Gate for CountGate<T> {
    fn pass(&self, _worker: u32, _part: u32) {
        let mut passes = self.passes.lock(&self.rt);
        *passes = passes.saturating_add(1);
    }
}

/// Lets every thread start, and notes the number of its worker.
#[derive(Drop)]
pub struct NotesStarts {
    pub workers: Vec<u32>,
}

impl NotesStarts {
    pub fn new(alloc: Global) -> NotesStarts {
        NotesStarts {
            workers: Vec::new(alloc),
        }
    }
}

impl Starter for NotesStarts {
    fn may_start(&mut self, worker: u32) -> bool {
        self.workers.push(worker).is_ok()
    }
}

/// A writer that takes nothing.
#[derive(Drop)]
pub struct Broken;

impl Write for Broken {
    fn write(&mut self, _buf: &[u8]) -> io::Result<usize> {
        Err(io::Error::from(ErrorKind::Other))
    }

    fn flush(&mut self) -> io::Result<()> {
        Ok(())
    }
}

/// The first eight notes of a gate and of what runs the parts, in the order in which they come.
#[derive(Drop)]
pub struct Log {
    pub count: AtomicU64,
    pub notes: [AtomicU64; 8],
}

impl Log {
    pub fn new() -> Log {
        Log {
            count: AtomicU64::new(0),
            notes: eight_notes(),
        }
    }

    fn add(&self, note: u64) {
        let at = self.count.fetch_add(1, Ordering::SeqCst);
        if let Some(place) = self.notes.get(at as usize) {
            place.store(note, Ordering::SeqCst);
        }
    }
}

/// Notes a pass of worker w before part p as 100 w + p.
#[derive(Drop)]
pub struct LogGate<'a> {
    pub log: &'a Log,
}

impl Gate for LogGate<'_> {
    fn pass(&self, worker: u32, part: u32) {
        self.log.add(u64::from(worker) * 100 + u64::from(part));
    }
}

/// Notes the run of part p as p, and has another runner run it.
#[derive(Drop)]
pub struct LogRunner<'a, P> {
    pub log: &'a Log,
    pub runner: &'a P,
}

impl<'a, P: PartRunner> PartRunner for LogRunner<'a, P> {
    type Done = P::Done;

    type Tools = P::Tools;

    ghost IsOpen = { λ log. P.IsOpen log.runner.now };

    ghost part_count = { λ log. P.part_count log.runner.now };

    ghost IsDone = { λ log. P.IsDone log.runner.now };

    ghost IsOver = { λ log. P.IsOver log.runner.now };

    ghost AreClean = { P.AreClean };

    fn parts(&self) -> u32 {
        self.runner.parts()
    }

    fn tools(&self, alloc: Global) -> P::Tools {
        self.runner.tools(alloc)
    }

    fn run(&self, part: u32, tools: &mut P::Tools) -> Result<P::Done, RunError> {
        self.log.add(u64::from(part));
        self.runner.run(part, tools)
    }
}
