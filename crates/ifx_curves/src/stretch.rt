// A part of a segment of an axis.

ghost use Rattle.std.specs.Prelude.{◌≡◌, ◌<◌, ◌≤◌, ◌^◌, unsigned_abs};

/// The part `way / span` of the segment from point number `segment` to the next one.
#[derive(Clone, Copy)]
pub struct Stretch {
    pub segment: u32,
    pub way: u32,
    pub span: u32,
    ghost near: { segment < 4096 },
    ghost end: { way ≤ span },
    ghost some: { 1 ≤ span },
    ghost few: { span ≤ 65536 },
}

impl Stretch {
    ghost use Rattle.ifx_curves.specs.Stretches.{nearer_end, weighted_sum};

    /// The number of the segment's point that is nearer to the end: the upper one from half the way
    /// on.
    pub fn nearer_point(&self) -> u32
        ensures { result ≡ nearer_end self.now }
    {
        if 2 * self.way < self.span {
            self.segment
        } else {
            self.segment + 1
        }
    }

    /// The sum of two heights at the segment's points, each weighted by the way from the other one to
    /// the end. Divided by the span it is the height there.
    pub fn weighted(&self, low: i64, high: i64) -> i64
        requires low { unsigned_abs low < 2 ^ 32 }
        requires high { unsigned_abs high < 2 ^ 32 }
        ensures { result ≡ weighted_sum self.now low high }
    {
        low * i64::from(self.span - self.way) + high * i64::from(self.way)
    }
}
