ghost use Rattle.std.specs.Prelude.{◌≡◌};

// A time in microseconds.
#[derive(Clone, Copy, PartialEq, Eq, PartialOrd, Ord, Debug)]
pub struct Microseconds(pub u32);

// A link, which runs from tail to head only.
#[derive(Clone, Copy, PartialEq, Eq, Debug)]
pub struct Link {
    pub tail: u8,
    pub head: u8,
    // the IGP weight
    pub weight: u16,
    pub delay: Microseconds,
    // how scarce the carrier calls the link
    pub figure: u32,
}

impl Link {
    pub fn new(tail: u8, head: u8, weight: u16, delay: Microseconds, figure: u32) -> Link
        ensures { result ≡ record { tail = tail; head = head; weight = weight; delay = delay; figure = figure } }
    {
        Link {
            tail,
            head,
            weight,
            delay,
            figure,
        }
    }
}
