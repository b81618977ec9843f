// A disk of pages: what it reads, and what a crash may leave.
ghost use Rattle.std.specs.Prelude.{◌≡◌, ◌≤◌, ◌<◌, Bool, List, ℕ, OnOk, OnErr, IsOk, IsErr, IsTrue};
ghost use Rattle.page_disk.specs.Disk.{Image, Images, Alike, Only, Elapses, Wrote, WroteOrNot, Telling, HasCause};
ghost use Rattle.page_disk.specs.Disk.{RoseByOne, last_count};

/// A page of 4096 bytes, the unit of every read and write.
pub type Page = [u8; 4096];

/// What a crash may leave of a page whose write was not flushed.
#[derive(Clone, Copy, Debug, PartialEq, Eq)]
pub enum WriteKind {
    /// The page is written whole or not at all: a crash leaves the old page or the new one.
    Whole,
    /// The page may be torn: a crash leaves the old page, the new one, or any page whose checksum doesn't hold.
    Plain,
}

/// The disk failed a call. It says nothing more, since a store can do nothing more about it.
#[derive(Clone, Copy, Debug, PartialEq, Eq)]
pub struct DiskFault;

/// A disk of pages, numbered from 0, which takes one call at a time.
///
/// An image is what each page holds. A disk that tells says which image it reads now and which images a crash may
/// leave; one that doesn't, as a real file, keeps the clauses on its clock, its pages and its counts alone.
pub trait PageDisk {
    /// Whether disks of this type tell what their pages hold, now and after a crash, for their whole life.
    ghost tells: { Bool };

    /// What each page reads.
    ghost now: { Self → Image };

    /// What a crash at this moment may leave.
    ghost images: { Self → Image → Type 0 };

    /// Every image that a crash at some moment from that clock until now might have left, during a call or between two.
    ghost since: { Self → ℕ → Image → Type 0 };

    /// A number that never falls, and rises with each write and flush that answers Ok.
    ghost clock: { Self → ℕ };

    /// How many pages the disk has. No call changes it.
    ghost pages: { Self → ℕ };

    /// How often a read has failed. A read alone changes it, and it never falls.
    ghost read_faults: { Self → ℕ };

    /// How often a write or a flush has failed. These alone change it, and it never falls.
    ghost write_faults: { Self → ℕ };

    /// How often a page was asked for. A read alone changes it: it rises by one, or stands at its last number.
    ghost reads: { Self → ℕ };

    /// How many pages the disk has.
    fn pages(&self) -> u64
        ensures { result ≡ pages self.now };

    /// The disk's clock, by which a moment is named.
    fn clock(&self) -> u64
        ensures { result ≡ clock self.now };

    /// Reads a page. It answers a fault only where the count of read faults rose in this call, or stands at its last
    /// number; an Ok leaves that count as it was.
    fn read(&mut self, page: u64, into: &mut Page) -> Result<(), DiskFault>
        requires { page < pages self.old }
        ensures content { IsTrue tells → OnOk result (into.new ≡ now self.old page) }
        ensures now { IsTrue tells → now self.new ≡ now self.old }
        ensures images { IsTrue tells → Alike (images self.new) (images self.old) }
        ensures since { IsTrue tells → (t : ℕ) → Alike (since self.new t) (since self.old t) }
        ensures clock { clock self.new ≡ clock self.old }
        ensures pages { pages self.new ≡ pages self.old }
        ensures faults { HasCause (read_faults self.old) (read_faults self.new) result }
        ensures no_fault { OnOk result (read_faults self.new ≡ read_faults self.old) }
        ensures write_faults { write_faults self.new ≡ write_faults self.old }
        ensures reads { RoseByOne (reads self.old) (reads self.new) };

    /// Writes a page, which reads as given from then on; only a flush makes it safe from a crash. It answers a fault
    /// only where the count of write faults rose in this call, or stands at its last number; an Ok leaves that count as
    /// it was. After a fault the page may hold all that a write with Ok would allow.
    fn write(&mut self, page: u64, from: &Page, kind: WriteKind) -> Result<(), DiskFault>
        requires { page < pages self.old }
        ensures ok { IsTrue tells
            → OnOk result (Wrote (now self.old) (now self.new) (images self.old) (images self.new) page kind from.now) }
        ensures err { IsTrue tells
            → OnErr result
            (WroteOrNot (now self.old) (now self.new) (images self.old) (images self.new) page kind from.now) }
        ensures since { IsTrue tells
            → Elapses (clock self.old) (clock self.new) (since self.old) (since self.new) (images self.new) }
        ensures later { clock self.old ≤ clock self.new }
        ensures rises { OnOk result (clock self.old < clock self.new) }
        ensures at_last { clock self.old ≡ last_count → IsErr result × (clock self.new ≡ clock self.old)
            × (IsTrue tells → (now self.new ≡ now self.old) × Alike (images self.new) (images self.old)
            × ((t : ℕ) → Alike (since self.new t) (since self.old t))) }
        ensures pages { pages self.new ≡ pages self.old }
        ensures faults { HasCause (write_faults self.old) (write_faults self.new) result }
        ensures no_fault { OnOk result (write_faults self.new ≡ write_faults self.old) }
        ensures read_faults { read_faults self.new ≡ read_faults self.old }
        ensures reads { reads self.new ≡ reads self.old };

    /// Makes what the disk reads the one image that a crash leaves. Its faults come and are counted as a write's are,
    /// and after one the images are as they were.
    fn flush(&mut self) -> Result<(), DiskFault>
        ensures ok { IsTrue tells → OnOk result (Only (now self.old) (images self.new)) }
        ensures err { IsTrue tells → OnErr result (Alike (images self.new) (images self.old)) }
        ensures now { IsTrue tells → now self.new ≡ now self.old }
        ensures since { IsTrue tells
            → Elapses (clock self.old) (clock self.new) (since self.old) (since self.new) (images self.new) }
        ensures later { clock self.old ≤ clock self.new }
        ensures rises { OnOk result (clock self.old < clock self.new) }
        ensures at_last { clock self.old ≡ last_count → IsErr result × (clock self.new ≡ clock self.old)
            × (IsTrue tells → (now self.new ≡ now self.old) × Alike (images self.new) (images self.old)
            × ((t : ℕ) → Alike (since self.new t) (since self.old t))) }
        ensures pages { pages self.new ≡ pages self.old }
        ensures faults { HasCause (write_faults self.old) (write_faults self.new) result }
        ensures no_fault { OnOk result (write_faults self.new ≡ write_faults self.old) }
        ensures read_faults { read_faults self.new ≡ read_faults self.old }
        ensures reads { reads self.new ≡ reads self.old };

    /// What the disk reads is one of the images, and what a crash since this moment leaves is just the images.
    ghost telling: { IsTrue tells → Telling now images since clock };
}
