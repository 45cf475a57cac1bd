//! Files opened at their first write.

ghost use Rattle.std.specs.Prelude.{◌≡◌, None, false};
ghost use Rattle.bufr_bits.specs.Devices.{Writing};

use bufr_bits::{Failed, Sink};
use std::fs;
use std::fs::OpenFile;
use std::io::{Error, ErrorKind, Write};
use std::rt::Files;

/// A file that opens, empty, at its first write or flush. If it cannot open, the write fails. A flush
/// waits until the octets are on the device.
#[derive(Drop)]
pub struct LazyOutput<'a, R: Files> {
    rt: &'a R,
    path: &'a str,
    file: Option<R::File>,
    failed: bool,
}

impl<'a, R: Files> LazyOutput<'a, R> {
    /// Makes the output of a path, and opens nothing.
    pub fn new(rt: &'a R, path: &'a str) -> Self
        ensures { ⟦<LazyOutput<'a, R> as Sink>⟧.writing result
            ≡ record { taken = None; failed = false } }
    {
        LazyOutput {
            rt,
            path,
            file: None,
            failed: false,
        }
    }

    /// Opens the file if it is not open.
    fn open(&mut self)
        ensures { self.new.failed ≡ self.old.failed }
    {
        if self.file.is_none() {
            self.file = fs::create(self.rt, self.path).ok();
        }
    }
}

/// Waits until the octets of a file are on its device, and returns whether that worked. A pipe, a
/// socket or a terminal has no device.
fn is_on_device<F: OpenFile>(file: &F) -> bool {
    match file.sync_all() {
        Ok(()) => true,
        Err(error) => has_no_device(&error),
    }
}

/// Whether an error says that a file has no device.
fn has_no_device(error: &Error) -> bool {
    matches!(
        error.kind(),
        ErrorKind::InvalidInput | ErrorKind::ReadOnlyFilesystem | ErrorKind::Unsupported
    )
}

impl<'a, R: Files> Sink for LazyOutput<'a, R> {
    ghost writing = { λ s. record { taken = None; failed = s.failed } };

    fn write(&mut self, piece: &[u8]) -> Result<usize, Failed> {
        self.open();
        if let Some(file) = &mut self.file {
            match file.write(piece) {
                Ok(n) if n <= piece.len() && (n > 0 || piece.is_empty()) => return Ok(n),
                _ => {}
            }
        }
        self.failed = true;
        Err(Failed)
    }

    fn flush(&mut self) -> Result<(), Failed> {
        self.open();
        if let Some(file) = &mut self.file {
            if file.flush().is_ok() && is_on_device(file) {
                return Ok(());
            }
        }
        self.failed = true;
        Err(Failed)
    }
}
