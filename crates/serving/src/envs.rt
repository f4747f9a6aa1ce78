//! The system's clock, and random words.

use journals::moment_now;
use rand::rngs::StdRng;
use rand_core::Rng;
use session_pool::{Env, EnvSource};
use std::io;
use std::random::RandomSource;
use std::time::Clock;

/// A clock, and words of a generator that began with the system's random bytes.
#[derive(Drop)]
pub struct SystemEnvs<'a, C: Clock> {
    clock: &'a C,
    words: StdRng,
}

impl<'a, C: Clock + RandomSource> SystemEnvs<'a, C> {
    /// Fails where the system gives no random bytes.
    pub fn new(rt: &'a C) -> io::Result<Self> {
        Ok(SystemEnvs {
            clock: rt,
            words: rand::make_rng(rt)?,
        })
    }
}

impl<'a, C: Clock> EnvSource for SystemEnvs<'a, C> {
    ghost use Rattle.serving.specs.Handing.{HandsIn};

    ghost gives = { λ old env new. HandsIn (⟦<StdRng as Rng>⟧.stream old.words) env
        (⟦<StdRng as Rng>⟧.stream new.words) };

    fn next_env(&mut self) -> Env {
        let mut token = [0; 16];
        self.words.fill_bytes(&mut token);
        Env {
            moment: moment_now(self.clock),
            token: u128::from_le_bytes(token),
            nonce: self.words.next_u64(),
        }
    }
}
