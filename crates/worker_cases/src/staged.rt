ghost use Rattle.std.specs.Prelude.{◌≡◌, IfOk, string_bytes};
ghost use Rattle.worker_cases.specs.Staged.{mark_at};

use batch_ids::T256;
use job_threads::{Artifact, ArtifactFault, Happening, Tape};
use std::alloc::{AllocError, Global};
use std::sync::Arc;
use std::sync::atomic::{AtomicU64, Ordering};

/// The place at which an artifact faults.
#[derive(Clone, Copy, PartialEq, Eq)]
pub(crate) enum Place {
    Nowhere,
    Begin,
    Run,
    Open,
    ThirdItem,
    ThirdResult,
    SecondGroup,
    SecondMark,
}

/// The counts of a writer, as the case sees them.
#[derive(Drop)]
pub(crate) struct Written {
    pub(crate) groups: AtomicU64,
    pub(crate) items: AtomicU64,
    /// The items of one digit, with a 0 after each group.
    pub(crate) digits: AtomicU64,
}

/// Returns the counts of a writer that has written nothing.
pub(crate) fn nothing_written(alloc: Global) -> Result<Arc<Written>, AllocError> {
    let written = Written {
        groups: AtomicU64::new(0),
        items: AtomicU64::new(0),
        digits: AtomicU64::new(0),
    };
    Ok(Arc::new(alloc, written)?)
}

impl Written {
    fn add_digit(&self, digit: u64) {
        let digits = self.digits.load(Ordering::SeqCst);
        let more = digits.saturating_mul(10).saturating_add(digit);
        self.digits.store(more, Ordering::SeqCst);
    }

    fn add_group(&self, items: &[String]) {
        self.groups.fetch_add(1, Ordering::SeqCst);
        self.items.fetch_add(items.len() as u64, Ordering::SeqCst);
        for item in items {
            self.add_digit(item.as_str().parse::<u64>().unwrap_or(0));
        }
        self.add_digit(0);
    }
}

/// An artifact that reads the given items, filters out none, takes each group, and faults at the
/// given place. An item is its own checkpoint.
#[derive(Drop)]
pub(crate) struct Staged {
    pub(crate) alloc: Global,
    pub(crate) place: Place,
    pub(crate) items: Vec<String>,
    pub(crate) at: usize,
    pub(crate) calls: u64,
    pub(crate) written: Arc<Written>,
    pub(crate) tape: Tape,
}

/// Returns a copy of a text.
fn copy_of(alloc: Global, text: &str) -> Result<String, ArtifactFault>
    ensures { IfOk result (λ copy. string_bytes copy ≡ text.now) }
{
    match String::from_str(alloc, text) {
        Ok(copy) => Ok(copy),
        Err(_) => Err(ArtifactFault::OutOfMemory),
    }
}

/// Returns the checkpoint after `at` of these items were read.
#[tactic(auto, using(crate::proofs::Staging::mark_behind))]
fn last_mark(items: &[String], at: usize) -> &str
    ensures { result.now ≡ mark_at items.now at }
{
    if at == 0 {
        return "";
    }
    match items.get(at - 1) {
        Some(item) => item.as_str(),
        None => "",
    }
}

impl Staged {
    /// Checks whether the artifact faults here.
    fn faults_at(&self, place: Place, here: bool) -> bool {
        self.place == place && here
    }
}

impl Artifact for Staged {
    ghost use Rattle.worker_cases.specs.Staged.{staged};

    ghost meaning = { λ a. staged a.items.items a.at a.tape.told };

    fn begin(&mut self, _partition: Option<u32>) -> Result<(), ArtifactFault> {
        if self.faults_at(Place::Begin, true) {
            self.tape = self.tape.then(Happening::OpenFault);
            return Err(ArtifactFault::Failed);
        }
        Ok(())
    }

    fn run(&mut self) -> Result<Option<T256>, ArtifactFault> {
        if self.faults_at(Place::Run, true) {
            self.tape = self.tape.then(Happening::Fault);
            return Err(ArtifactFault::Failed);
        }
        Ok(None)
    }

    fn open(&mut self, _checkpoint: Option<&str>) -> Result<(), ArtifactFault> {
        if self.faults_at(Place::Open, true) {
            self.tape = self.tape.then(Happening::OpenFault);
            return Err(ArtifactFault::Failed);
        }
        self.at = 0;
        Ok(())
    }

    fn read(&mut self) -> Result<Option<String>, ArtifactFault> {
        if self.at >= self.items.len() {
            return Ok(None);
        }
        if self.faults_at(Place::ThirdItem, self.at == 2) {
            self.tape = self.tape.then(Happening::Fault);
            return Err(ArtifactFault::Failed);
        }
        match copy_of(self.alloc, self.items[self.at].as_str()) {
            Err(fault) => {
                self.tape = self.tape.then(Happening::Fault);
                Err(fault)
            }
            Ok(item) => {
                self.at += 1;
                Ok(Some(item))
            }
        }
    }

    fn process(&mut self, item: &str) -> Result<Option<String>, ArtifactFault> {
        self.calls = self.calls.saturating_add(1);
        if self.faults_at(Place::ThirdResult, self.calls == 3) {
            self.tape = self.tape.then(Happening::Fault);
            return Err(ArtifactFault::Failed);
        }
        match copy_of(self.alloc, item) {
            Err(fault) => {
                self.tape = self.tape.then(Happening::Fault);
                Err(fault)
            }
            Ok(item) => Ok(Some(item)),
        }
    }

    fn write(&mut self, items: &[String]) -> Result<(), ArtifactFault> {
        self.calls = self.calls.saturating_add(1);
        if self.faults_at(Place::SecondGroup, self.calls == 2) {
            self.tape = self.tape.then(Happening::Fault);
            return Err(ArtifactFault::Failed);
        }
        self.written.add_group(items);
        self.tape = self.tape.then(Happening::Took(items));
        Ok(())
    }

    fn checkpoint(&mut self) -> Result<String, ArtifactFault> {
        if self.faults_at(Place::SecondMark, self.at >= 3) {
            self.tape = self.tape.then(Happening::Fault);
            return Err(ArtifactFault::Failed);
        }
        match copy_of(self.alloc, last_mark(self.items.as_slice(), self.at)) {
            Err(fault) => {
                self.tape = self.tape.then(Happening::Fault);
                Err(fault)
            }
            Ok(mark) => Ok(mark),
        }
    }
}
