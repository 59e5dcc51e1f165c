// What every map answers, whatever it stands on.
ghost use Rattle.std.specs.Prelude.{◌≡◌};
ghost use Rattle.netmap.specs.Net.{Net, Sound, places as place_count, link_at};
ghost use Rattle.netmap.specs.Changes.{put_reply, after_put, remove_reply, after_remove, read_reply};

use crate::link::Link;
use questions::Denial;

pub trait Map {
    // The network that the map stands for.
    ghost meaning: { Self → Net };

    // Each `impl` proves that its network keeps the limits.
    ghost sound: { (m : Self) → Sound (meaning m) };

    fn nodes(&self) -> usize
        ensures { result ≡ (meaning self.now).nodes };

    fn places(&self) -> usize
        ensures { result ≡ place_count (meaning self.now) };

    fn read(&self, place: usize) -> Result<Option<Link>, Denial>
        ensures { result ≡ read_reply (meaning self.now) place };

    fn put(&mut self, place: usize, link: Link) -> Result<(), Denial>
        ensures reply { result ≡ put_reply (meaning self.old) place link }
        ensures after { meaning self.new ≡ after_put (meaning self.old) place link };

    fn remove(&mut self, place: usize) -> Result<(), Denial>
        ensures reply { result ≡ remove_reply (meaning self.old) place }
        ensures after { meaning self.new ≡ after_remove (meaning self.old) place };
}

// The link at a place, or nothing where the place is empty or there is no such place.
pub fn held<M: Map>(map: &M, place: usize) -> Option<Link>
    ensures { result ≡ link_at (M.meaning map.now) place }
{
    map.read(place).unwrap_or(None)
}
