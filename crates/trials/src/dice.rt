// Numbers by chance, the same at each run: Marsaglia's xorshift on 64 bits.
ghost use Rattle.std.specs.Prelude.{◌≤◌};

#[derive(Drop)]
pub struct Dice {
    state: u64,
}

impl Dice {
    pub fn new() -> Self {
        Dice {
            state: 0x2545_F491_4F6C_DD1D,
        }
    }

    fn next(&mut self) -> u64 {
        self.state ^= self.state << 13;
        self.state ^= self.state >> 7;
        self.state ^= self.state << 17;
        self.state
    }

    // A number from low to high.
    pub fn between(&mut self, low: u16, high: u16) -> u16
        requires { low ≤ high }
        ensures { (low ≤ result) × (result ≤ high) }
    {
        let size = u64::from(high - low) + 1;
        low + ((self.next() >> 20) % size) as u16
    }

    // True once in so many times.
    pub fn once_in(&mut self, times: u16) -> bool
        requires { 1 ≤ times }
    {
        self.between(0, times - 1) == 0
    }
}
