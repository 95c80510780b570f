//! Reports of how far a run has come.

// So many bytes are passed between two reports.
const PROGRESS_STEP: u64 = 1 << 22;

/// Takes reports of how far a run has come.
pub trait Progress {
    /// So many bytes of the input are passed. It is called before a read, and at most once in each
    /// 4 MiB. It has no contract: a test counts the calls.
    fn notify(&mut self, passed: u64);
}

/// Takes no reports.
#[derive(Clone, Copy, Debug, PartialEq, Eq)]
pub struct NoProgress;

impl Progress for NoProgress {
    fn notify(&mut self, _passed: u64) {}
}

/// Reports that so many bytes are passed, where a step has passed since the last report, after
/// `steps` of them. It has no contract: a test counts the calls.
pub(crate) fn notify_step<P: Progress>(progress: &mut P, steps: &mut u64, passed: u64) {
    let step = passed / PROGRESS_STEP;
    if *steps < step {
        *steps = step;
        progress.notify(passed);
    }
}
