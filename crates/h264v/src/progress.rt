//! How far a judgement has come, told on standard error.
#![tactic(auto)]

use h264_pages::survey::Meter;
use std::io::Write;
use std::time::{Duration, Instant};

/// Tells at most once a second how many bytes and pictures there were, and at the end the last of it.
#[derive(Clone, Copy)]
pub struct Progress<'a> {
    rt: &'a HostRuntime,
    /// When it began; none where the clock can't be read, and then nothing is told.
    began: Option<Instant>,
    /// The second that was told last.
    told: u64,
}

impl<'a> Progress<'a> {
    /// One that begins now.
    pub fn new(rt: &'a HostRuntime) -> Progress<'a> {
        Progress {
            rt,
            began: Instant::now(rt).ok(),
            told: 0,
        }
    }

    /// How long it has run; none where nothing is to be told.
    fn elapsed(&self) -> Option<Duration> {
        let began = self.began?;
        began.elapsed(self.rt).ok()
    }

    /// Writes the line of it.
    fn tell(&self, elapsed: Duration, byte: u64, pictures: u64) {
        let milliseconds = u64::try_from(elapsed.as_millis()).unwrap_or(u64::MAX);
        let rate = pictures.saturating_mul(1000) / milliseconds.max(1);
        let _ = writeln!(
            self.rt.stderr(),
            "progress bytes {byte} pictures {pictures} a second {rate}"
        );
    }
}

impl Meter for Progress<'_> {
    fn note(&mut self, byte: u64, pictures: u64) {
        if let Some(elapsed) = self.elapsed() {
            if elapsed.as_secs() > self.told {
                self.told = elapsed.as_secs();
                self.tell(elapsed, byte, pictures);
            }
        }
    }

    fn end(&mut self, byte: u64, pictures: u64) {
        if let Some(elapsed) = self.elapsed() {
            self.tell(elapsed, byte, pictures);
        }
    }
}
