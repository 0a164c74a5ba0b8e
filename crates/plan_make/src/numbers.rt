//! Numbers that follow from a start.
ghost use Rattle.std.specs.Prelude.{◌≡◌, ◌<◌};
ghost use Rattle.plan_make.specs.Numbers.{next, told};

use std::marker::Model;

/// A linear congruential generator over 64 bits.
#[derive(Clone, Copy)]
pub(crate) struct Numbers {
    state: u64,
}

impl Model for Numbers {
    ghost use Rattle.std.specs.Prelude.{ℕ};

    ghost Value = { ℕ };

    ghost view = { λ numbers. numbers.state };

    ghost inverse = { λ n. record { state = n } };
}

impl Numbers {
    /// The numbers from a state on.
    pub(crate) fn new(state: u64) -> Numbers
        ensures { result ≡ state }
    {
        Numbers { state }
    }

    /// Draws a number below a limit.
    #[tactic(auto, unfolding(crate::specs::Numbers::next, crate::specs::Numbers::told))]
    pub(crate) fn draw(&mut self, limit: u64) -> u64
        requires { 0 < limit }
        ensures value { result ≡ told limit (next self.old) }
        ensures below { result < limit }
        ensures state { self.new ≡ next self.old }
    {
        let product = self.state.wrapping_mul(6_364_136_223_846_793_005);
        self.state = product.wrapping_add(1_442_695_040_888_963_407);
        (self.state >> 33) % limit
    }
}
