//! Files opened at their first read.

ghost use Rattle.std.specs.Prelude.{◌≡◌, ◌↔◌, None, false, IsTrue};
ghost use Rattle.bufr_io.specs.declared.lazy_input.Stage.TheVariants as stages;
ghost use Rattle.bufr_bits.specs.Devices.{Reading};

use bufr_bits::{Failed, Source};
use std::fs;
use std::io::Read;
use std::rt::Files;

/// A state of a file.
#[derive(Drop)]
enum Stage<F> {
    /// Not opened yet.
    Ahead,
    /// Open.
    Open(F),
    /// Impossible to open.
    Unopened,
    /// Closed, after its end or a failed read.
    Closed,
}

/// A file that opens at its first read, or before by `file_of`, and closes when a read meets its end or fails.
/// So of many inputs one is open at a time. If it cannot open, its first read fails.
#[derive(Drop)]
pub struct LazyInput<'a, R: Files> {
    rt: &'a R,
    path: &'a str,
    stage: Stage<R::File>,
    failed: bool,
    reads: u64,
    met_end: bool,
}

impl<'a, R: Files> LazyInput<'a, R> {
    /// Makes the input of a path, and opens nothing.
    pub fn new(rt: &'a R, path: &'a str) -> Self
        ensures { ⟦<LazyInput<'a, R> as Source>⟧.reading result
            ≡ record { left = None; failed = false; reads = 0; met_end = false } }
    {
        LazyInput {
            rt,
            path,
            stage: Stage::Ahead,
            failed: false,
            reads: 0,
            met_end: false,
        }
    }

    /// Returns the path.
    pub fn path(&self) -> &'a str
        ensures { result ≡ self.now.path }
    {
        self.path
    }

    /// Whether the file could not open.
    pub fn is_unopened(&self) -> bool
        ensures { IsTrue result ↔ (self.now.stage ≡ stages.Unopened) }
    {
        matches!(&self.stage, Stage::Unopened)
    }

    /// Opens the file, which nobody has opened.
    pub(crate) fn open(&mut self)
        ensures { ⟦<LazyInput<'a, R> as Source>⟧.reading self.new
            ≡ ⟦<LazyInput<'a, R> as Source>⟧.reading self.old }
    {
        self.stage = match fs::open(self.rt, self.path) {
            Ok(file) => Stage::Open(file),
            Err(_) => Stage::Unopened,
        };
    }
}

impl<'a, R: Files> Source for LazyInput<'a, R> {
    ghost reading = { λ s. record
        { left = None; failed = s.failed; reads = s.reads; met_end = s.met_end } };

    fn read(&mut self, buffer: &mut [u8]) -> Result<usize, Failed> {
        self.reads += 1;
        if matches!(&self.stage, Stage::Ahead) {
            self.open();
        }
        let given = match &mut self.stage {
            Stage::Open(file) => file.read(buffer),
            Stage::Closed => {
                self.met_end = true;
                return Ok(0);
            }
            _ => {
                self.failed = true;
                return Err(Failed);
            }
        };
        let Ok(given) = given else {
            self.failed = true;
            self.stage = Stage::Closed;
            return Err(Failed);
        };
        if given == 0 {
            self.met_end = true;
            self.stage = Stage::Closed;
        }
        Ok(given)
    }
}
