ghost use Rattle.std.specs.Prelude.{◌≡◌, ◌<◌};
ghost use Rattle.lt_gen.specs.Generator.{seeded, draw_of};

use rand_core::SeedableRng;
use rand_core::utils::NextWord;
use rand_pcg::Lcg64Xsh32;
use std::marker::Model;

/// Numbers drawn in turn, the same ones from the same seed.
#[derive(Drop)]
pub struct Draws {
    words: Lcg64Xsh32,
}

impl Model for Draws {
    ghost use Rattle.rand_pcg.specs.Lcg.{Lcg};

    ghost Value = { Lcg };

    ghost view = { λ d. d.words };
}

impl Draws {
    #[tactic(auto, unfolding(crate::specs::Generator::seeded))]
    pub fn new(seed: u64) -> Draws
        ensures { result ≡ seeded seed }
    {
        Draws {
            words: Lcg64Xsh32::seed_from_u64(seed),
        }
    }

    /// The next number, which is below `n`.
    #[tactic(auto, unfolding(crate::specs::Generator::draw_of))]
    pub fn draw(&mut self, n: u32) -> u32
        requires { 0 < n }
        ensures value { (result, self.new) ≡ draw_of n self.old }
        ensures below { result < n }
    {
        self.words.next_word() % n
    }
}
