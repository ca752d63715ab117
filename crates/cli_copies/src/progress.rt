//! How far a long call has come, on a terminal.

use std::io::IsTerminal;
use std::time::Instant;
use store_documents::Watch;

/// How far a call has come. It is told on standard error, if that is a terminal, once in each second but the first.
#[derive(Drop)]
pub struct Progress<'a> {
    rt: &'a HostRuntime,
    /// What is counted.
    what: &'a str,
    /// When the call began. None where nothing is to be told.
    begin: Option<Instant>,
    /// In which second something was told. 0 where nothing was.
    told: u64,
}

impl<'a> Progress<'a> {
    /// The beginning of a call that prints nothing before its end.
    pub fn new(rt: &'a HostRuntime, what: &'a str) -> Progress<'a> {
        let begin = if rt.stderr().is_terminal() {
            Instant::now(rt).ok()
        } else {
            None
        };
        Progress {
            rt,
            what,
            begin,
            told: 0,
        }
    }

    /// The beginning of a call that prints what it does. Where that is seen on a terminal nothing else is told.
    pub fn beside(rt: &'a HostRuntime, what: &'a str) -> Progress<'a> {
        let mut progress = Progress::new(rt, what);
        if rt.stdout().is_terminal() {
            progress.begin = None;
        }
        progress
    }

    /// So many were done.
    pub fn tell(&mut self, count: usize) {
        let now = self.seconds();
        if now > self.told {
            self.told = now;
            let what = self.what;
            let _ = eprint!(self.rt; "\rdesk: {count} {what}");
        }
    }

    /// How many seconds have passed.
    fn seconds(&self) -> u64 {
        match self.begin {
            Some(begin) => match begin.elapsed(self.rt) {
                Ok(gone) => gone.as_secs(),
                Err(_) => 0,
            },
            None => 0,
        }
    }

    /// The end of the call.
    pub fn end(self) {
        if self.told > 0 {
            let _ = eprintln!(self.rt; "");
        }
    }
}

impl Watch for Progress<'_> {
    fn seen(&mut self, count: u32) {
        self.tell(count as usize);
    }
}
