ghost use Rattle.std.specs.Prelude.{◌≡◌, ◌<◌};

/// Numbers that look drawn by chance, the same in each run.
#[derive(Drop)]
pub struct Draw {
    state: u64,
}

impl Draw {
    /// The first of the numbers.
    pub fn new() -> Draw {
        Draw { state: 1 }
    }

    /// The first of the numbers that are drawn under a number, 0 for those of `new`.
    pub fn numbered(number: u32) -> Draw {
        Draw {
            state: u64::from(number).saturating_add(1),
        }
    }

    /// The next number, below a count; 0 where the count is 0.
    pub fn below(&mut self, count: usize) -> usize
        ensures below { 0 < count → result < count }
        ensures none { count ≡ 0 → result ≡ 0 }
    {
        self.state = self
            .state
            .wrapping_mul(6364136223846793005)
            .wrapping_add(1442695040888963407);
        let number = (self.state >> 33) as usize;
        number.checked_rem(count).unwrap_or(0)
    }
}
