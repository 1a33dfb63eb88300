//! Numbers drawn one after another.
ghost use Rattle.std.specs.Prelude.{◌≡◌, ◌<◌};
ghost use Rattle.dm_draw.specs.Draw.{drawn, stepped};

/// A linear congruential generator: the seed is its first state.
#[derive(Clone, Copy)]
pub struct Generator {
    pub state: u64,
}

impl Generator {
    /// The generator of a seed.
    pub fn new(seed: u32) -> Generator
        ensures { result.state ≡ seed }
    {
        Generator {
            state: u64::from(seed),
        }
    }

    /// A number below `n`.
    #[tactic(auto, unfolding(crate::specs::Draw::drawn))]
    pub fn draw(&mut self, n: u8) -> u8
        requires { 0 < n }
        ensures drawn { result ≡ drawn n self.old.state }
        ensures below { result < n }
        ensures stepped { self.new.state ≡ stepped self.old.state }
    {
        self.step();
        (self.state / (1 << 33) % u64::from(n)) as u8
    }

    /// A place in a list of `n` elements.
    #[tactic(auto, unfolding(crate::specs::Draw::drawn))]
    pub fn draw_place(&mut self, n: usize) -> usize
        requires { 0 < n }
        ensures drawn { result ≡ drawn n self.old.state }
        ensures below { result < n }
        ensures stepped { self.new.state ≡ stepped self.old.state }
    {
        self.step();
        (self.state / (1 << 33) % n as u64) as usize
    }

    /// The next state.
    #[tactic(auto, unfolding(crate::specs::Draw::stepped))]
    fn step(&mut self)
        ensures { self.new.state ≡ stepped self.old.state }
    {
        let next = (6_364_136_223_846_793_005 * u128::from(self.state) + 1_442_695_040_888_963_407)
            % (1 << 64);
        self.state = next as u64;
    }
}
