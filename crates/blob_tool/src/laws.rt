//! Laws of runs, with no code: what power that failed leaves of one, and how the next begins with it; and what the log
//! of one tells in which nothing fails.

ghost use Rattle.std.specs.Prelude.{◌≡◌, List, IsTrue};
ghost use Rattle.blob_tool.specs.Found.{HasSoundImage, IsSoundImage};
ghost use Rattle.blob_tool.specs.Runs.{IsLoaded};
ghost use Rattle.running_store.specs.StoreView.{StoreView, state_of};
ghost use Rattle.running_store.specs.Surviving.{HasOneImage};
ghost use Rattle.running_store.specs.declared.loaded.Loaded.{Loaded as ALoaded};
ghost use Rattle.store_model.specs.Recovers.{AreSynced, Recovers};
ghost use Rattle.store_model.specs.StoreState.{shown};
ghost use Rattle.super_block.specs.declared.page.Super.{Super};
ghost use Rattle.volume_model.specs.Volumes.{Volumes};
ghost use Rattle.volume_model.specs.declared.command.Command.{Command};
ghost use Rattle.volume_model.specs.declared.reply.Entry.{Entry};
ghost use Rattle.blob_tool.specs.Outcome.{NothingFails, RanTo};
ghost use Rattle.blob_tool.specs.Runs.{TellsNoFault};
ghost use Rattle.blob_tool.specs.declared.driving.Drive.{Drive as ADrive};
ghost use Rattle.blob_tool.specs.declared.run_script.RunScript.{RunScript as AnOrigin};
ghost use Rattle.blob_tool.specs.declared.status.Status.TheVariants.{Good};

use page_disk::PageDisk;
use store_model::recoveries;
use streams::{Sink, Source};

/// A law, with no code: a device whose one image is sound is one of which the clauses on power failure speak; and where
/// a crash left that image of a run, the next run begins with the volumes that the image recovers: those of the log as
/// it survives. So power may fail any number of times.
pub fn left_images_are_loaded<D: PageDisk>()
    ensures sound { (disk : D) → HasOneImage D.PageDisk disk → IsSoundImage (D.pages disk) (D.now disk)
        → HasSoundImage D.PageDisk disk }
    ensures shown { (s : Super) (first : Volumes) (log : List Entry) (disk : D) (loaded : ALoaded D)
        (script : List (List Command)) (next : StoreView D) → IsTrue D.tells → D.pages disk ≡ s.device_pages
        → IsSoundImage s.device_pages (D.now disk) → Recovers s first log (D.now disk)
        → IsLoaded D.PageDisk script disk loaded next → AreSynced s first log (shown (state_of D.PageDisk next)) }
{
    recoveries();
}

/// A law, with no code: where no count of faults rises in the call, no entry of the log is `read fault`, `fault` or
/// `stopped`.
pub fn undisturbed_runs_tell_no_fault<S: Source, K: Sink, D: PageDisk>()
    ensures { (script script_now : S) (out out_now : K) (before back : D) (from : AnOrigin) (drive : ADrive)
        → (ran : RanTo S.Source script script_now D.PageDisk K.Sink out out_now before back from drive Good)
        → NothingFails S.Source script script_now D.PageDisk K.Sink out out_now before back from
        → TellsNoFault ran.ended.0.last.log }
{}
