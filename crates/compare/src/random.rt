// Numbers that look random and are the same in every run.
ghost use Rattle.std.specs.Prelude.{◌<◌, ◌≤◌};

#[derive(Drop)]
pub struct Random {
    state: u64,
}

impl Random {
    pub(crate) fn new() -> Random {
        Random {
            state: 0x9e37_79b9_7f4a_7c15,
        }
    }

    // A number below n, or 0 if n is.
    pub(crate) fn below(&mut self, n: u32) -> u32
        ensures below { 0 < n → result < n }
        ensures within { result ≤ n }
    {
        let mut x = self.state;
        x ^= x.wrapping_shl(13);
        x ^= x.wrapping_shr(7);
        x ^= x.wrapping_shl(17);
        self.state = x;
        let high = (x.wrapping_shr(20) & 0xffff_ffff) as u32;
        high.checked_rem(n).unwrap_or(0)
    }
}
