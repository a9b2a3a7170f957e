//! Where bytes are written to.
#![tactic(auto)]

ghost use Rattle.std.specs.Prelude.{◌≡◌, ℕ, ◌<◌, ◌≤◌, Bool, true, false, List, Option, length, take, IfOk, OnOk, OnErr};
ghost use Rattle.std.specs.Io.KnownBytes.{Appends, Keeps};

use h264_base::Failed;
use std::io;
use std::io::{ErrorKind, Write};

/// How often a write is tried while it is interrupted.
const TRIES: u32 = 1 << 20;

/// What bytes are sent to. It tells whether it has failed, and whether it holds back some of what it took.
pub trait Device {
    /// What it took, where it tells.
    ghost contents: { Self → Option (List ℕ) };

    /// Whether it has failed.
    ghost has_failed: { Self → Bool };

    /// Whether it may hold back bytes that it took, and hand them over later.
    ghost holds_back: { Self → Bool };

    /// Tells whether it has failed.
    fn did_fail(&self) -> bool
        ensures { result ≡ has_failed self.now };

    /// Takes some of these bytes, and tells how many. It may hold them back.
    ///
    /// Failed: the device failed. It then holds what it held before.
    fn send_some(&mut self, bytes: &[u8]) -> Result<usize, Failed>
        requires { 0 < length bytes.now }
        ensures some { IfOk result (λ n. (0 < n) × (n ≤ length bytes.now)) }
        ensures ok { IfOk result (λ n. Appends (contents self.old) (contents self.new) (take n bytes.now)) }
        ensures kept { OnErr result (Keeps (contents self.old) (contents self.new)) }
        ensures quiet { OnOk result (has_failed self.new ≡ has_failed self.old) }
        ensures failed { OnErr result (has_failed self.new ≡ true) };

    /// Hands over what it held back.
    ///
    /// Failed: the device failed.
    fn send_rest(&mut self) -> Result<(), Failed>
        ensures kept { Keeps (contents self.old) (contents self.new) }
        ensures handed_over { OnOk result (holds_back self.new ≡ false) }
        ensures quiet { OnOk result (has_failed self.new ≡ has_failed self.old) }
        ensures failed { OnErr result (has_failed self.new ≡ true) };
}

/// A writer, and whether a write of it has failed.
#[derive(Drop)]
pub struct WriteDevice<W: Write + Drop> {
    pub writer: W,
    /// Whether it failed, took nothing, or was interrupted each time.
    pub failed: bool,
    /// Whether it may hold back bytes: it was written to since it was flushed last.
    pub held_back: bool,
    /// The system's cause of the failure, where it gave one.
    pub cause: Option<io::Error>,
}

impl<W: Write + Drop> WriteDevice<W> {
    /// A writer that has not failed.
    pub fn new(writer: W) -> WriteDevice<W>
        ensures writer { result.writer ≡ writer }
        ensures failed { result.failed ≡ false }
    {
        WriteDevice {
            writer,
            failed: false,
            held_back: false,
            cause: None,
        }
    }
}

impl<W: Write + Drop> Device for WriteDevice<W> {
    ghost contents = { λ d. W.contents d.writer };

    ghost has_failed = { λ d. d.failed };

    ghost holds_back = { λ d. d.held_back };

    fn did_fail(&self) -> bool {
        self.failed
    }

    fn send_some(&mut self, bytes: &[u8]) -> Result<usize, Failed> {
        self.held_back = true;
        for _ in 0..TRIES {
            match self.writer.write(bytes) {
                Ok(0) => {
                    self.failed = true;
                    return Err(Failed);
                }
                Ok(n) => return Ok(n),
                Err(error) => {
                    if error.kind() != ErrorKind::Interrupted {
                        self.failed = true;
                        self.cause = Some(error);
                        return Err(Failed);
                    }
                }
            }
        }
        self.failed = true;
        Err(Failed)
    }

    fn send_rest(&mut self) -> Result<(), Failed> {
        match self.writer.flush() {
            Ok(()) => {
                self.held_back = false;
                Ok(())
            }
            Err(error) => {
                self.failed = true;
                self.cause = Some(error);
                Err(Failed)
            }
        }
    }
}
