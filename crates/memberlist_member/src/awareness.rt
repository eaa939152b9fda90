//! How healthy a member is (`awareness.go`; Lifeguard, section IV.A: local health).

ghost use Rattle.std.specs.Prelude.{◌≡◌, ◌+◌, ◌-◌, ◌*◌, ◌<◌, min};

/// How unhealthy a member takes itself to be: 0 if it is well, and at most one less than
/// `AwarenessMaxMultiplier`.
#[derive(Clone, Copy, PartialEq, Eq)]
pub struct Awareness {
    score: u32,
    /// `AwarenessMaxMultiplier`.
    max: u16,
}

impl Awareness {
    /// A member that is well.
    pub fn new(max: u16) -> Awareness
        requires { 0 < max }
        ensures score { result.score ≡ 0 }
        ensures max { result.max ≡ max }
    {
        Awareness { score: 0, max }
    }

    /// How unhealthy it is.
    pub fn score(&self) -> u32
        ensures { result ≡ self.now.score }
    {
        self.score
    }

    /// It is less well by this, up to one less than the multiplier.
    pub fn worsen(&mut self, by: u32)
        ensures score { self.new.score ≡ min (self.old.score + by) (self.old.max - 1) }
        ensures max { self.new.max ≡ self.old.max }
    {
        self.score = self
            .score
            .saturating_add(by)
            .min(u32::from(self.max).saturating_sub(1));
    }

    /// It is better by one.
    pub fn improve(&mut self)
        ensures score { self.new.score ≡ self.old.score - 1 }
        ensures max { self.new.max ≡ self.old.max }
    {
        self.score = self.score.saturating_sub(1);
    }

    /// A time that is longer the less well it is (`ScaleTimeout`).
    pub fn scaled(&self, time: u32) -> u64
        ensures { result ≡ time * (self.now.score + 1) }
    {
        u64::from(time) * (u64::from(self.score) + 1)
    }
}
