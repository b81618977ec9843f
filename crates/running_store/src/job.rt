//! The running job: its replacements, one after another.

ghost use Rattle.std.specs.Prelude.{◌≡◌};
ghost use Rattle.std.specs.Option.{option_and_then, option_map};
ghost use Rattle.std.specs.List.{list_any};
ghost use Rattle.running_store.specs.Jobs.{job_seen, is_commit, waits_for_job};

use crate::replacements::{Change, Erasure, LaidReplacement, Planned};
use std::collections::VecDeque;
use volume_model::PlaceList;

/// How far a job has overwritten the clusters that it has claimed: so many of them, and of the next one so many pages.
#[derive(Clone, Copy)]
pub struct Zeroed {
    /// How many pages each cluster has.
    pub cluster_pages: u32,
    pub clusters: usize,
    pub pages: u32,
}

impl Zeroed {
    ghost use Rattle.std.specs.Prelude.{◌≡◌, ◌<◌, length};
    ghost use Rattle.running_store.specs.Zeroing.{next_zeroed};

    /// The page of the device that is overwritten next.
    pub fn next_page(self, claimed: &PlaceList) -> u64
        requires { self.clusters < length claimed.now }
        ensures { result ≡ next_zeroed claimed.now self }
    {
        let cluster = claimed.as_slice()[self.clusters];
        u64::from(cluster) * u64::from(self.cluster_pages) + u64::from(self.pages)
    }
}

/// How far a job's next replacement is, or what is left of the last one.
#[derive(Drop)]
pub enum Work {
    /// So much of the claimed clusters is overwritten with zeros; no page of the metadata is written.
    Zeroing { planned: Planned, zeroed: Zeroed },
    /// So many of the pages behind the head are written.
    Writing { planned: Planned, written: usize },
    /// A blob is to be erased.
    Removing(Erasure),
    /// So many of the old pages are overwritten.
    Erasing { erased: usize },
}

impl Work {
    ghost use Rattle.std.specs.Prelude.{◌≡◌};
    ghost use Rattle.running_store.specs.Jobs.{commits_now};

    /// Whether the replacement at work is the commit, and still to be made.
    fn commits(&self) -> bool
        ensures { result ≡ commits_now self.now }
    {
        match self {
            Work::Zeroing { planned, .. } => planned.effects.commit.is_some(),
            Work::Writing { planned, .. } => planned.effects.commit.is_some(),
            Work::Removing(erasure) => erasure.commit.is_some(),
            Work::Erasing { .. } => false,
        }
    }
}

/// For whom a job is done.
#[derive(Clone, Copy)]
pub enum Serves {
    /// The command of a channel. The blob at the head `freeze`, if there is one, is neither read nor written until the
    /// job has ended.
    Command { channel: u8, freeze: Option<u32> },
    /// The insert of the cluster that a channel has claimed for its write.
    Insert(u8),
    /// No channel: what recovery found is made good.
    Repair,
}

impl Serves {
    ghost use Rattle.std.specs.Prelude.{◌≡◌};
    ghost use Rattle.running_store.specs.Jobs.{freeze_of};

    /// The blob that the job freezes.
    pub fn freeze(self) -> Option<u32>
        ensures { result ≡ freeze_of self }
    {
        match self {
            Serves::Command { channel: _, freeze } => freeze,
            Serves::Insert(_) | Serves::Repair => None,
        }
    }
}

/// The running job: for whom it is done, whether the store is first to be marked as in use, the replacement that it
/// works on, with the places that stood behind its head before it, and those that come behind that, in their order.
#[derive(Drop)]
pub struct RunningJob {
    pub serves: Serves,
    pub marks: bool,
    pub work: Work,
    pub old: PlaceList,
    pub later: VecDeque<LaidReplacement>,
}

impl RunningJob {
    ghost use Rattle.std.specs.Prelude.{◌≡◌, ◌<◌, ◌∷◌, [], length, IfSome};
    ghost use Rattle.std.specs.Option.{option_map, option_map_or};
    ghost use Rattle.store_model.specs.Phases.{erasing, has_commit};
    ghost use Rattle.running_store.specs.Jobs.{behind_zero, job_left, job_seen, phases_in, to_come, writes_laid};
    ghost use Rattle.running_store.specs.Jobs.{zeroing_for, IsHeaded, IsZeroedFor, MayFollow};

    /// The job that makes these replacements, if there is one.
    pub fn next(serves: Serves, mut later: VecDeque<LaidReplacement>) -> Option<RunningJob>
        requires { MayFollow serves later.items }
        ensures seen { option_map job_seen result ≡ job_left serves (phases_in later.items) }
        ensures headed { IfSome result IsHeaded }
        ensures coming { option_map_or to_come result [] ≡ later.items }
    {
        let LaidReplacement { change, old } = later.pop_front()?;
        let work = match change {
            Change::Writes(planned) => Work::Writing {
                planned,
                written: 0,
            },
            Change::Erases(erasure) => Work::Removing(erasure),
        };
        Some(RunningJob {
            serves,
            marks: false,
            work,
            old,
            later,
        })
    }

    /// The job behind a replacement, if something is left of it: the places that stood behind the head are overwritten,
    /// and then come these replacements.
    pub fn behind(
        serves: Serves,
        old: PlaceList,
        later: VecDeque<LaidReplacement>,
    ) -> Option<RunningJob>
        requires { MayFollow serves later.items }
        ensures seen { option_map job_seen result
            ≡ job_left serves (erasing old old (phases_in later.items)) }
        ensures headed { IfSome result IsHeaded }
        ensures coming { option_map_or to_come result [] ≡ later.items }
    {
        if old.len() == 0 {
            return RunningJob::next(serves, later);
        }
        Some(RunningJob {
            serves,
            marks: false,
            work: Work::Erasing { erased: 0 },
            old,
            later,
        })
    }

    /// The job behind a page of zeros: the next page of its clusters, or else its metadata, is to be written.
    pub fn behind_zeros(
        serves: Serves,
        planned: Planned,
        zeroed: Zeroed,
        old: PlaceList,
        later: VecDeque<LaidReplacement>,
    ) -> RunningJob
        requires zeroed { IsZeroedFor serves planned zeroed }
        requires follows { MayFollow serves later.items }
        ensures seen { job_seen result
            ≡ behind_zero (zeroing_for serves planned old zeroed (phases_in later.items)) }
        ensures headed { IsHeaded result }
        ensures coming { to_come result ≡ writes_laid planned old ∷ later.items }
    {
        let Zeroed {
            cluster_pages,
            clusters,
            pages,
        } = zeroed;
        let next_page = pages + 1;
        if next_page < cluster_pages {
            let next = Zeroed {
                cluster_pages,
                clusters,
                pages: next_page,
            };
            let work = Work::Zeroing {
                planned,
                zeroed: next,
            };
            return RunningJob {
                serves,
                marks: false,
                work,
                old,
                later,
            };
        }
        let count = planned.effects.claimed.len();
        let next_cluster = clusters + 1;
        if next_cluster < count {
            let next = Zeroed {
                cluster_pages,
                clusters: next_cluster,
                pages: 0,
            };
            let work = Work::Zeroing {
                planned,
                zeroed: next,
            };
            return RunningJob {
                serves,
                marks: false,
                work,
                old,
                later,
            };
        }
        let work = Work::Writing {
            planned,
            written: 0,
        };
        RunningJob {
            serves,
            marks: false,
            work,
            old,
            later,
        }
    }

    /// The job, before which the store is to be marked as in use, or not.
    pub fn with_mark(self, marks: bool) -> RunningJob
        ensures { result ≡ record self { marks = marks } }
    {
        let RunningJob {
            serves,
            marks: _,
            work,
            old,
            later,
        } = self;
        RunningJob {
            serves,
            marks,
            work,
            old,
            later,
        }
    }

    /// Whether its command is still to be done.
    fn commits(&self) -> bool
        ensures { result ≡ has_commit (job_seen self.now).todo }
    {
        self.work.commits() || any_commits(&self.later)
    }
}

/// Whether one of these replacements is the commit.
fn any_commits(later: &VecDeque<LaidReplacement>) -> bool
    ensures { result ≡ list_any is_commit later.now.items }
{
    later.iter().any(|x| x.commits())
}

/// The channel that waits for a job: that of an insert to its end, that of a command to its commit.
pub fn waiting_for(job: &Option<RunningJob>) -> Option<u8>
    ensures { result ≡ option_and_then waits_for_job (option_map job_seen job.now) }
{
    let Some(running) = job else {
        return None;
    };
    match running.serves {
        Serves::Insert(channel) => Some(channel),
        Serves::Command { channel, freeze: _ } => {
            if running.commits() {
                Some(channel)
            } else {
                None
            }
        }
        Serves::Repair => None,
    }
}
