// The record table: a map on the caller's own records, one to a place.
ghost use Rattle.netmap.specs.Net.{Sound};
ghost use Rattle.netmap.specs.Opening.{net_over};

use crate::link::Link;

pub mod calls;

// Until it is opened it means a network of one node and no places.
#[derive(Drop)]
pub struct RecordTable<'a> {
    nodes: Option<usize>,
    records: &'a mut [Option<Link>],
    ghost ok: { ∥ Sound (net_over nodes records.now) ∥₁ },
}
