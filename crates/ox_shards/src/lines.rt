//! How keys are spread over lines whose number grows one by one (linear hashing).

ghost use Rattle.std.specs.Prelude.{◌≡◌, ◌<◌, ◌^◌, ◌+◌, IfSome};
ghost use Rattle.ox_shards.specs.Lawful.{AreLawful};

/// There are at most twice as many lines as two to this power.
const MOST_LEVEL: u32 = 31;

/// How many lines a table has. The number by which a key is spread leads to one of them. When a
/// line is added, one of the others is split: some of its keys move to the new one, and all other
/// keys stay where they are. So a table grows a little with each key, and never all at once.
#[derive(Clone, Copy)]
pub struct Lines {
    /// Two to this power was the count when the last round of splits began.
    level: u32,
    count: usize,
    ghost lawful: { AreLawful level count },
}

impl Lines {
    ghost use Rattle.ox_shards.specs.Lines.{Splits, line_of, is_last};

    /// One line.
    pub fn one() -> Lines
        ensures { result.count ≡ 1 }
    {
        Lines { level: 0, count: 1 }
    }

    /// How many lines there are.
    pub fn count(&self) -> usize
        ensures { result ≡ self.now.count }
    {
        self.count
    }

    /// How many lines there were when the last round of splits began.
    fn half(&self) -> u64
        ensures { result ≡ 2 ^ self.now.level }
    {
        1 << self.level
    }

    /// The line to which the number leads by which a key is spread, counted from 0.
    pub fn line_of(&self, spread: u64) -> usize
        ensures value { result ≡ line_of self.now spread }
        ensures in_range { result < self.now.count }
    {
        let half = self.half();
        let line = (spread & (2 * half - 1)) as usize;
        if line < self.count {
            line
        } else {
            line - half as usize
        }
    }

    /// Whether a number leads to the last line.
    pub fn is_last(&self, spread: u64) -> bool
        ensures { result ≡ is_last self.now spread }
    {
        self.line_of(spread) + 1 == self.count
    }

    /// One more line, and the line that is split for it. `None` where there are too many to count.
    pub fn more(&self) -> Option<(Lines, usize)>
        ensures { IfSome result (λ more. Splits self.now more.0 more.1) }
    {
        let (level, count) = (self.level, self.count);
        let half = self.half() as usize;
        if count < 2 * half {
            Some((
                Lines {
                    level,
                    count: count + 1,
                },
                count - half,
            ))
        } else if level < MOST_LEVEL {
            Some((
                Lines {
                    level: level + 1,
                    count: count + 1,
                },
                0,
            ))
        } else {
            None
        }
    }
}
