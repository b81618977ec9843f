//! Claims that are given back.

ghost use Rattle.std.specs.Prelude.{◌≡◌, ◌<◌, [], false, None, List, length, slice_set};
ghost use Rattle.bit_array.specs.Bits.{is_in};
ghost use Rattle.running_store.specs.Running.{view_of, InOrder};
ghost use Rattle.running_store.specs.Stages.{stage_seen};
ghost use Rattle.running_store.specs.GivingBack.{row_given_back, HasGivenUp, HasWork, IsGivenUp};
ghost use Rattle.running_store.specs.GivingBack as fill;
ghost use Rattle.running_store.specs.StoreView.{rows_of};
ghost use Rattle.running_store.specs.LoadedWhole.{without_first};

use crate::logging::{Answer, log, log_then};
use crate::rows::Row;
use crate::running::Running;
use crate::stages::Stage;
use page_disk::PageDisk;
use pools::ClusterPool;
use volume_model::Reply;

/// The row on which the metadata thread fills slots.
pub const FILL_ROW: u8 = 16;

/// Whether a cluster is in use.
fn is_in_use(clusters: &ClusterPool, cluster: u32) -> bool
    ensures { result ≡ is_in clusters.now.bits cluster }
{
    let bits = clusters.bits();
    cluster < bits.len() && bits.get(cluster)
}

/// Makes a cluster clear, which is in use while the store runs; of a stopped store it isn't known.
fn clear_cluster(clusters: &mut ClusterPool, cluster: u32)
    requires { clusters.old.claims ≡ [] }
    ensures bits { clusters.new.bits ≡ slice_set clusters.old.bits cluster false }
    ensures unclaimed { clusters.new.claims ≡ [] }
{
    if is_in_use(clusters, cluster) {
        clusters.free(cluster);
    }
}

/// Makes the clusters clear that these rows have claimed.
pub(crate) fn clear_claimed(clusters: &mut ClusterPool, rows: &[Row])
    requires { clusters.old.claims ≡ [] }
    ensures bits { clusters.new.bits ≡ without_first clusters.old.bits (rows_of rows.now) (length rows.now) }
    ensures unclaimed { clusters.new.claims ≡ [] }
{
    for row in rows {
        if let Some(claim) = row.claim() {
            clear_cluster(clusters, claim.cluster);
        }
    }
}

/// A row goes on at this stage, and its claim, if it has one, is given back.
pub fn give_back<D: PageDisk>(running: &mut Running<D>, row: u8, next: Stage)
    requires order { InOrder D.PageDisk running.old }
    requires row { row < 17 }
    ensures given_back { view_of running.new ≡ row_given_back (view_of running.old) row (stage_seen next) }
    ensures order { InOrder D.PageDisk running.new }
{
    if let Some(claim) = running.rows[row as usize].let_go(next) {
        clear_cluster(&mut running.clusters, claim.cluster);
    }
}

/// The channel whose command a row works for, where it is the fill's row.
fn filled_on(filling: Option<u8>, row: u8) -> Option<u8>
    ensures { result ≡ fill.filled_on filling row }
{
    if row == FILL_ROW { filling } else { None }
}

/// A row waits again: where it is the fill's, it works for no command any more.
pub fn rest(filling: &mut Option<u8>, row: u8)
    ensures { filling.new ≡ fill.filling_left filling.old row }
{
    if row == FILL_ROW {
        *filling = None;
    }
}

/// Logs a reply to the command that a row works for, its own or that which the fill's row fills slots for, whose
/// channel is to be told. The row goes on at this stage, and its claim, if it has one, is given back.
pub fn give_up<D: PageDisk>(running: &mut Running<D>, row: u8, reply: Reply, next: Stage)
    requires order { InOrder D.PageDisk running.old }
    requires works { HasWork running.old.filling running.old.rows.items row }
    ensures logged { IsGivenUp (view_of running.old) (view_of running.new) row (stage_seen next) reply
        (D.clock running.new.disk) }
    ensures rows { HasGivenUp running.old.filling running.old.rows.items running.new.rows.items row
        (stage_seen next) }
    ensures order { InOrder D.PageDisk running.new }
{
    give_back(running, row, next);
    match filled_on(running.filling, row) {
        None => log_then(running, row, Answer::Reply(reply), next),
        Some(channel) => {
            running.filling = None;
            log(running, channel, reply);
        }
    }
}
