// Opening a record table, and what makes it a map.
ghost use Rattle.std.specs.Prelude.{◌≡◌, ◌<◌, length, replicate, Some, None, slice_set};
ghost use Rattle.questions.specs.Asking.{reply, unless};
ghost use Rattle.netmap.specs.Changes.{with_place, put_denial, put_reply, after_put, remove_denial, remove_reply, after_remove};
ghost use Rattle.netmap.specs.Net.{Fit, places as place_count};
ghost use Rattle.netmap.specs.Opening.{no_places, all_empty, size_denial};
ghost use Rattle.netmap.specs.Tables.{table_net, table_sound, records_of};

use super::RecordTable;
use crate::checks::check_filled;
use crate::link::Link;
use crate::map::Map;
use crate::sizes::Sizes;
use questions::Denial;

impl<'a> RecordTable<'a> {
    // Not open yet: the records are as they were.
    pub fn over(records: &'a mut [Option<Link>]) -> RecordTable<'a>
        ensures means { table_net result ≡ no_places }
        ensures same { records_of result ≡ records.old }
        ensures named { result.records.ghost_name ≡ records.entry.ghost_name }
    {
        RecordTable {
            nodes: None,
            records,
        }
    }

    // Empties every place.
    pub fn open(&mut self, nodes: usize) -> Result<(), Denial>
        ensures reply { result ≡ reply (size_denial nodes (length (records_of self.old))) tt }
        ensures means { table_net self.new ≡ unless (size_denial nodes (length (records_of self.old))) (all_empty nodes (length (records_of self.old))) (table_net self.old) }
        ensures holds { records_of self.new ≡ unless (size_denial nodes (length (records_of self.old))) (replicate (length (records_of self.old)) None) (records_of self.old) }
        ensures named { self.new.records.ghost_name ≡ self.old.records.ghost_name }
    {
        let sizes = Sizes {
            nodes,
            places: self.records.len(),
        };
        sizes.check()?;
        self.nodes = None;
        self.records.fill(None);
        self.nodes = Some(nodes);
        Ok(())
    }

    fn sizes(&self) -> Sizes
        ensures nodes { result.nodes ≡ (table_net self.now).nodes }
        ensures places { result.places ≡ place_count (table_net self.now) }
    {
        match self.nodes {
            None => Sizes::NO_PLACES,
            Some(nodes) => Sizes {
                nodes,
                places: self.records.len(),
            },
        }
    }

    fn change(&mut self, place: usize, held: Option<Link>)
        requires within { place < place_count (table_net self.old) }
        requires fit { Fit (table_net self.old).nodes held }
        ensures means { table_net self.new ≡ with_place (table_net self.old) place held }
        ensures holds { records_of self.new ≡ slice_set (records_of self.old) place held }
        ensures named { self.new.records.ghost_name ≡ self.old.records.ghost_name }
    {
        self.records[place] = held;
    }
}

// `put` and `remove` also tell what the records hold, as an image's tell its bytes: so neither is a default of `Map`.
impl<'a> Map for RecordTable<'a> {
    ghost meaning = { table_net };

    ghost sound = { table_sound };

    fn nodes(&self) -> usize {
        self.sizes().nodes
    }

    fn places(&self) -> usize {
        self.sizes().places
    }

    fn read(&self, place: usize) -> Result<Option<Link>, Denial> {
        self.sizes().check_place(place)?;
        Ok(self.records[place])
    }

    fn put(&mut self, place: usize, link: Link) -> Result<(), Denial>
        ensures reply { result ≡ put_reply (table_net self.old) place link }
        ensures after { table_net self.new ≡ after_put (table_net self.old) place link }
        ensures holds { records_of self.new ≡ unless (put_denial (table_net self.old) place link) (slice_set (records_of self.old) place (Some link)) (records_of self.old) }
        ensures named { self.new.records.ghost_name ≡ self.old.records.ghost_name }
    {
        self.sizes().check_put(place, link)?;
        self.change(place, Some(link));
        Ok(())
    }

    fn remove(&mut self, place: usize) -> Result<(), Denial>
        ensures reply { result ≡ remove_reply (table_net self.old) place }
        ensures after { table_net self.new ≡ after_remove (table_net self.old) place }
        ensures holds { records_of self.new ≡ unless (remove_denial (table_net self.old) place) (slice_set (records_of self.old) place None) (records_of self.old) }
        ensures named { self.new.records.ghost_name ≡ self.old.records.ghost_name }
    {
        check_filled(self.read(place)?, place)?;
        self.change(place, None);
        Ok(())
    }
}
