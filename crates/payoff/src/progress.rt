// How far a run over many files has come, on a terminal.
use std::time::{Clock, Instant};

// How many seconds a run goes on before it shows anything.
const PATIENCE: u64 = 1;

// A line on standard error that is written over. It is never an error that it cannot be shown.
#[derive(Clone, Copy)]
pub struct Progress {
    // When the run began, by a clock that could be read, where somebody watches.
    begun: Option<Instant>,
    shown: bool,
}

impl Progress {
    // The progress of a run that begins now. Somebody watches where standard error is a terminal.
    pub fn new(rt: &impl Clock, watched: bool) -> Progress {
        Progress {
            begun: if watched { Instant::now(rt).ok() } else { None },
            shown: false,
        }
    }

    // Shows how many of the files are done, once the run has taken long enough.
    pub fn show(&mut self, rt: &(impl Clock + Eprint), done: usize, files: usize) {
        if self.is_due(rt) {
            let _ = eprint!(rt; "\r{done} of {files} files");
            self.shown = true;
        }
    }

    // Erases the line, before anything else is printed, and at the end.
    pub fn erase(&mut self, rt: &impl Eprint) {
        if self.shown {
            let _ = eprint!(rt; "\r\x1b[K");
            self.shown = false;
        }
    }

    fn is_due(&self, rt: &impl Clock) -> bool {
        match self.begun {
            Some(begun) => begun
                .elapsed(rt)
                .is_ok_and(|passed| passed.as_secs() >= PATIENCE),
            None => false,
        }
    }
}

#[cfg(test)]
mod tests {
    use super::*;
    use std::io;
    use std::time::Duration;

    // A clock that stands still, or cannot be read.
    #[derive(Clone, Copy)]
    struct Stopped(Option<u64>);

    impl Clock for Stopped {
        fn monotonic(&self) -> io::Result<Duration> {
            match self.0 {
                Some(millis) => Ok(Duration::from_millis(millis)),
                None => Err(io::Error::from(io::ErrorKind::Unsupported)),
            }
        }

        fn since_1970(&self) -> io::Result<Duration> {
            self.monotonic()
        }
    }

    // What the clock reads first and later, whether somebody watches, and whether the line is due then.
    const READINGS: [(Option<u64>, Option<u64>, bool, bool); 7] = [
        (Some(5000), Some(5000), true, false),
        (Some(5000), Some(5999), true, false),
        (Some(5000), Some(6000), true, true),
        (Some(5000), Some(9000), false, false),
        (Some(5000), Some(4000), true, false),
        (None, Some(9000), true, false),
        (Some(5000), None, true, false),
    ];

    #[test]
    fn due_after_a_second_that_is_watched(rt: HostRuntime) {
        for (first, later, watched, due) in READINGS {
            let progress = Progress::new(&Stopped(first), watched);
            assert_eq!(rt;
                progress.is_due(&Stopped(later)),
                due,
                "{first:?} {later:?}"
            );
        }
    }
}
