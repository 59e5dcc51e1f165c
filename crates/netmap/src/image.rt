// The image: a map on the caller's own map bytes.
ghost use Rattle.std.specs.Prelude.{◌≡◌, ◌<◌};
ghost use Rattle.netmap.specs.Layout.{encode};
ghost use Rattle.netmap.specs.Net.{Sound, places as place_count};
ghost use Rattle.netmap.specs.Reading.{net_in};

use crate::sizes::Sizes;

pub mod calls;

// Until it is opened, and while a place is written, it has no sizes, and means a network of one node and no places.
#[derive(Drop)]
pub struct Image<'a> {
    sizes: Option<Sizes>,
    bytes: &'a mut [u8],
    ghost ok: { ∥ Sound (net_in sizes bytes.now) ∥₁ },
    ghost whole: { (0 < place_count (net_in sizes bytes.now) → encode (net_in sizes bytes.now) ≡ bytes.now) },
}
