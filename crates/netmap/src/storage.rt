// Storing any map as an image.
ghost use Rattle.std.specs.Prelude.{◌≡◌, ◌≤◌, length, take, IfOk};
ghost use Rattle.questions.specs.Asking.{reply, unless};
ghost use Rattle.netmap.specs.Layout.{image_size};
ghost use Rattle.netmap.specs.Net.{places as place_count};
ghost use Rattle.netmap.specs.Storing.{store_denial, stored, OpensAs};

use crate::fields::{write_place, write_sizes};
use crate::map::{Map, held};
use crate::sizes::Sizes;
use questions::{Denial, Layer, Question};

// Writes the image of a map at the front of the space, and says how long it is.
pub fn store<M: Map>(map: &M, space: &mut [u8]) -> Result<usize, Denial>
    ensures reply { result ≡ reply (store_denial (M.meaning map.now) (length space.old)) (image_size (place_count (M.meaning map.now))) }
    ensures after { space.new ≡ unless (store_denial (M.meaning map.now) (length space.old)) (stored (M.meaning map.now) space.old) space.old }
    ensures reopens { IfOk result (λ size. OpensAs (take size space.new) (M.meaning map.now)) }
{
    // a method of `Sizes` would need the bound on places, which the header's check gives only afterwards
    let size = 4 + 12 * map.places();
    if space.len() < size {
        return Err(Denial::new(Question::StoreSpace, Layer::File, space.len()));
    }
    lay_out(map, space);
    Ok(size)
}

// Writes the image at the front of a space that is long enough.
fn lay_out<M: Map>(map: &M, space: &mut [u8])
    requires { image_size (place_count (M.meaning map.now)) ≤ length space.old }
    ensures after { space.new ≡ stored (M.meaning map.now) space.old }
    ensures reopens { OpensAs (take (image_size (place_count (M.meaning map.now))) space.new) (M.meaning map.now) }
{
    let sizes = Sizes::of(map);
    write_sizes(space, sizes);
    // a place is read and written by its number
    for place in 0..sizes.places {
        write_place(space, sizes.places, place, held(map, place));
    }
}
