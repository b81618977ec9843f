//! Jobs of one replacement, made of what was prepared for it.

use crate::besides::nothing_besides;
use crate::preparing::{Laid, Prepared};
use blob_meta::Meta;
use running_store::{Effects, Planned, RunningJob, Serves, Work, Zeroed};
use std::alloc::Global;
use std::collections::VecDeque;

impl Prepared {
    ghost use Rattle.std.specs.Prelude.{◌≡◌, ◌<◌, ◌∷◌, [], drop, false, IsSome, None};
    ghost use Rattle.store_model.specs.Places.{AreDistinct};
    ghost use Rattle.running_store.specs.Jobs.{begun_job, job_seen, to_come, writes_laid, writing_for, IsHeaded};
    ghost use Rattle.running_store.specs.declared.job.Serves.TheVariants.{Command};
    ghost use Rattle.job_begins.specs.Begins.{no_effects, planned_with};

    /// The job that writes the metadata as its commit, at its begin: clusters of so many pages each that it has claimed
    /// are to be overwritten with zeros first.
    pub(crate) fn job(
        self,
        alloc: Global,
        channel: u8,
        head: u32,
        new: Meta,
        effects: Effects,
        cluster_pages: u32,
    ) -> RunningJob
        requires headed { self.laid.chain ≡ head ∷ drop 1 self.laid.chain }
        requires once { AreDistinct effects.freed }
        requires commits { IsSome effects.commit }
        requires some_pages { 0 < cluster_pages }
        ensures seen { job_seen result
            ≡ begun_job (Command channel None) (planned_with self head new effects) self.old cluster_pages [] }
        ensures unmarked { result.marks ≡ false }
        ensures headed { IsHeaded result }
        ensures coming { to_come result ≡ writes_laid (planned_with self head new effects) self.old ∷ [] }
    {
        let Prepared { laid, old } = self;
        let Laid { chain, pages } = laid;
        let serves = Serves::Command {
            channel,
            freeze: None,
        };
        let later = VecDeque::new(alloc);
        let claimed = effects.claimed.len();
        let planned = Planned {
            head,
            new,
            effects,
            chain,
            pages,
        };
        let work = if claimed > 0 {
            let zeroed = Zeroed {
                cluster_pages,
                clusters: 0,
                pages: 0,
            };
            Work::Zeroing { planned, zeroed }
        } else {
            Work::Writing {
                planned,
                written: 0,
            }
        };
        RunningJob {
            serves,
            marks: false,
            work,
            old,
            later,
        }
    }

    /// The job that writes the metadata of a blob that is there, at its begin, and commits nothing and does nothing
    /// besides.
    pub(crate) fn alone(self, alloc: Global, serves: Serves, head: u32, new: Meta) -> RunningJob
        requires headed { self.laid.chain ≡ head ∷ drop 1 self.laid.chain }
        ensures seen { job_seen result
            ≡ writing_for serves (planned_with self head new no_effects) self.old 0 [] }
        ensures unmarked { result.marks ≡ false }
        ensures headed { IsHeaded result }
        ensures coming { to_come result
            ≡ writes_laid (planned_with self head new no_effects) self.old ∷ [] }
    {
        let Prepared { laid, old } = self;
        let Laid { chain, pages } = laid;
        let effects = nothing_besides(alloc);
        let planned = Planned {
            head,
            new,
            effects,
            chain,
            pages,
        };
        RunningJob {
            serves,
            marks: false,
            work: Work::Writing {
                planned,
                written: 0,
            },
            old,
            later: VecDeque::new(alloc),
        }
    }
}
