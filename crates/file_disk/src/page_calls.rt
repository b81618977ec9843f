//! What is asked of a file under a disk of pages.

ghost use Rattle.std.specs.Prelude.{◌≡◌, ◌+◌, ◌<◌, ◌≤◌, ◌^◌, ◌∷◌, Bool, ℕ, List, IfOk, IsTrue, get_or, is_ok, length};
ghost use Rattle.file_disk.specs.FileCalls.{FileBytes, FileCall, DidWrite, DidSync, NoneFailed, file_after, moved_pages};

use page_disk::{Page, WriteKind};
use std::io;

/// A file that records its writes and syncs with what they answered. Each method makes one call of the file, but that a
/// run of pages that wasn't taken whole may go on, behind whole pages, by one more.
pub trait PageCalls {
    /// Whether files of this type read as their record says, as long as no write and no sync has failed.
    ghost is_honest: { Bool };

    /// What the file held when it was opened.
    ghost opened: { Self → FileBytes };

    /// The writes and syncs since then with their answers, newest first.
    ghost calls: { Self → List FileCall };

    /// How many whole pages it had when it was opened.
    ghost pages: { Self → ℕ };

    /// How many whole pages it had when it was opened.
    fn pages(&self) -> u64
        ensures pages { result ≡ pages self.now }
        ensures few { result < 2 ^ 52 };

    /// Reads bytes from this offset on, and answers how many.
    fn read_at(&mut self, into: &mut Page, offset: u64) -> io::Result<usize>
        ensures content { IsTrue is_honest → NoneFailed (calls self.old)
            → IfOk result (λ count. (i : ℕ) → i < count
            → get_or into.new i 0 ≡ file_after (opened self.old) (calls self.old) (offset + i)) }
        ensures within { IfOk result (λ count. count ≤ 4096) }
        ensures calls { calls self.new ≡ calls self.old }
        ensures opened { opened self.new ≡ opened self.old }
        ensures pages { pages self.new ≡ pages self.old };

    /// Writes the bytes of a run of pages, one behind the other, from this offset on, and answers how many it took.
    fn write_at(&mut self, from: &[Page], offset: u64, kind: WriteKind) -> io::Result<usize>
        ensures calls { calls self.new
            ≡ DidWrite offset from.now kind (moved_pages (length from.now) result) ∷ calls self.old }
        ensures opened { opened self.new ≡ opened self.old }
        ensures pages { pages self.new ≡ pages self.old };

    /// Makes all that was written before lasting.
    fn sync(&mut self) -> io::Result<()>
        ensures calls { calls self.new ≡ DidSync (is_ok result) ∷ calls self.old }
        ensures opened { opened self.new ≡ opened self.old }
        ensures pages { pages self.new ≡ pages self.old };
}
