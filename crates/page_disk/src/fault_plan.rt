// Which calls of a disk are to fail.
ghost use Rattle.std.specs.Prelude.{◌≡◌, ◌≤◌, ◌↔◌, IsTrue};
ghost use Rattle.page_disk.specs.Disk.{last_count};
ghost use Rattle.page_disk.specs.Fault.{plan_begun, calls_of, counted, IsFailing, IsPlannedToFail, plan_after};

/// One of the three calls of a disk that can fail.
#[derive(Clone, Copy, Debug, PartialEq, Eq)]
pub enum CallKind {
    Read,
    Write,
    Flush,
}

/// A call that is to fail: the nth of this kind, from 1.
#[derive(Clone, Copy, Debug, PartialEq, Eq)]
pub struct Fail {
    pub kind: CallKind,
    pub nth: u64,
}

/// Which calls are to fail.
#[derive(Drop)]
pub(crate) enum FailingCalls {
    /// These.
    Listed(Vec<Fail>),
    /// Every one after so many more.
    Stopping(u64),
}

impl FailingCalls {
    fn is_planned(&self, kind: CallKind, nth: u64) -> bool
        ensures { IsTrue result ↔ IsPlannedToFail self.now kind nth }
    {
        match self {
            FailingCalls::Listed(fails) => fails.contains(&Fail { kind, nth }),
            FailingCalls::Stopping(left) => *left == 0,
        }
    }

    /// One call was made.
    fn step(&mut self)
        ensures { self.new ≡ plan_after self.old }
    {
        if let FailingCalls::Stopping(left) = self {
            *left = left.saturating_sub(1);
        }
    }
}

/// Which calls are to fail, and how many of each kind there were.
#[derive(Drop)]
pub(crate) struct FaultPlan {
    pub(crate) plan: FailingCalls,
    pub(crate) reads: u64,
    pub(crate) writes: u64,
    pub(crate) flushes: u64,
}

impl FaultPlan {
    pub(crate) fn new(plan: FailingCalls) -> FaultPlan
        ensures { result ≡ plan_begun plan }
    {
        FaultPlan {
            plan,
            reads: 0,
            writes: 0,
            flushes: 0,
        }
    }

    pub(crate) fn calls(&self, kind: CallKind) -> u64
        ensures { result ≡ calls_of self.now kind }
    {
        match kind {
            CallKind::Read => self.reads,
            CallKind::Write => self.writes,
            CallKind::Flush => self.flushes,
        }
    }

    /// Counts a call, and says whether it fails.
    pub(crate) fn is_failing(&mut self, kind: CallKind) -> bool
        ensures fails { IsTrue result ↔ IsFailing self.old kind }
        ensures counted { self.new ≡ counted self.old kind }
        ensures in_range { calls_of self.old kind ≤ last_count }
    {
        let nth = self.calls(kind).saturating_add(1);
        let fails = self.plan.is_planned(kind, nth);
        self.plan.step();
        match kind {
            CallKind::Read => self.reads = nth,
            CallKind::Write => self.writes = nth,
            CallKind::Flush => self.flushes = nth,
        }
        fails
    }
}
