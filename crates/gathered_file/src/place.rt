//! Where a page lies beside the run that is kept.

ghost use Rattle.std.specs.Prelude.{◌≤◌};
ghost use Rattle.gathered_file.specs.Places.{IsPlace};

/// Where 4096 bytes of a file lie beside a run of pages.
pub(crate) enum Place {
    /// They are a page of the run, with this index.
    Kept(usize),
    /// They share no byte with it.
    Outside,
    /// They are parts of its pages.
    Across,
}

/// The place of the bytes from this offset on, beside a run of so many pages from its start on.
pub(crate) fn place_of(start: u64, count: usize, offset: u64) -> Place
    requires { count ≤ 256 }
    ensures { IsPlace start count offset result }
{
    if offset < start {
        return if start - offset >= 4096 {
            Place::Outside
        } else {
            Place::Across
        };
    }
    let from = offset - start;
    if from >= count as u64 * 4096 {
        return Place::Outside;
    }
    if from % 4096 == 0 {
        Place::Kept((from / 4096) as usize)
    } else {
        Place::Across
    }
}
