// Opening an image, and what makes it a map.
ghost use Rattle.std.specs.Prelude.{◌≡◌, ◌<◌, Some, None, MatchResult};
ghost use Rattle.questions.specs.Asking.{reply, unless};
ghost use Rattle.netmap.specs.Changes.{with_place, put_denial, put_reply, after_put, remove_denial, remove_reply, after_remove};
ghost use Rattle.netmap.specs.Images.{image_net, image_sound, bytes_of};
ghost use Rattle.netmap.specs.Layout.{encode, Images};
ghost use Rattle.netmap.specs.Net.{Fit, link_at, places as place_count};
ghost use Rattle.netmap.specs.Opening.{no_places};
ghost use Rattle.netmap.specs.Reading.{image_denial, decode};

use super::Image;
use crate::checks::check_filled;
use crate::fields::{examine, read_place, write_place};
use crate::link::Link;
use crate::map::Map;
use crate::sizes::Sizes;
use questions::Denial;

impl<'a> Image<'a> {
    // Not open yet: the bytes are as they were.
    pub fn over(bytes: &'a mut [u8]) -> Image<'a>
        ensures means { image_net result ≡ no_places }
        ensures same { bytes_of result ≡ bytes.old }
        ensures named { result.bytes.ghost_name ≡ bytes.entry.ghost_name }
    {
        Image { sizes: None, bytes }
    }

    // Granted where the bytes are the image of a network within the limits. Alters no byte.
    pub fn open(&mut self) -> Result<(), Denial>
        ensures reply { result ≡ reply (image_denial (bytes_of self.old)) tt }
        ensures means { MatchResult result
            (λ _. Images (bytes_of self.old) (image_net self.new))
            (λ _. image_net self.new ≡ image_net self.old) }
        ensures same { bytes_of self.new ≡ bytes_of self.old }
        ensures named { self.new.bytes.ghost_name ≡ self.old.bytes.ghost_name }
    {
        self.sizes = Some(self.examined()?);
        Ok(())
    }

    // Through a shared borrow, after which the bytes are known to be as they were.
    fn examined(&self) -> Result<Sizes, Denial>
        ensures { MatchResult result
            (λ s. (image_denial (bytes_of self.now) ≡ None) × Images (bytes_of self.now) (decode s.nodes s.places (bytes_of self.now)))
            (λ d. image_denial (bytes_of self.now) ≡ Some d) }
    {
        examine(self.bytes)
    }

    fn sizes(&self) -> Sizes
        ensures means { image_net self.now ≡ decode result.nodes result.places (bytes_of self.now) }
        ensures places { result.places ≡ place_count (image_net self.now) }
    {
        self.sizes.unwrap_or(Sizes::NO_PLACES)
    }

    fn held(&self, place: usize) -> Option<Link>
        requires { place < place_count (image_net self.now) }
        ensures { result ≡ link_at (image_net self.now) place }
    {
        read_place(self.bytes, self.sizes().places, place)
    }

    // Shuts the image while the place is written, so that what is half written means nothing.
    fn change(&mut self, place: usize, held: Option<Link>)
        requires within { place < place_count (image_net self.old) }
        requires fit { Fit (image_net self.old).nodes held }
        ensures means { image_net self.new ≡ with_place (image_net self.old) place held }
        ensures holds { bytes_of self.new ≡ encode (with_place (image_net self.old) place held) }
        ensures named { self.new.bytes.ghost_name ≡ self.old.bytes.ghost_name }
    {
        let sizes = self.sizes();
        self.sizes = None;
        write_place(self.bytes, sizes.places, place, held);
        self.sizes = Some(sizes);
    }
}

impl<'a> Map for Image<'a> {
    ghost meaning = { image_net };

    ghost sound = { image_sound };

    fn nodes(&self) -> usize {
        self.sizes().nodes
    }

    fn places(&self) -> usize {
        self.sizes().places
    }

    fn read(&self, place: usize) -> Result<Option<Link>, Denial> {
        self.sizes().check_place(place)?;
        Ok(self.held(place))
    }

    fn put(&mut self, place: usize, link: Link) -> Result<(), Denial>
        ensures reply { result ≡ put_reply (image_net self.old) place link }
        ensures after { image_net self.new ≡ after_put (image_net self.old) place link }
        ensures holds { bytes_of self.new ≡ unless (put_denial (image_net self.old) place link) (encode (with_place (image_net self.old) place (Some link))) (bytes_of self.old) }
        ensures named { self.new.bytes.ghost_name ≡ self.old.bytes.ghost_name }
    {
        self.sizes().check_put(place, link)?;
        self.change(place, Some(link));
        Ok(())
    }

    fn remove(&mut self, place: usize) -> Result<(), Denial>
        ensures reply { result ≡ remove_reply (image_net self.old) place }
        ensures after { image_net self.new ≡ after_remove (image_net self.old) place }
        ensures holds { bytes_of self.new ≡ unless (remove_denial (image_net self.old) place) (encode (with_place (image_net self.old) place None)) (bytes_of self.old) }
        ensures named { self.new.bytes.ghost_name ≡ self.old.bytes.ghost_name }
    {
        check_filled(self.read(place)?, place)?;
        self.change(place, None);
        Ok(())
    }
}
