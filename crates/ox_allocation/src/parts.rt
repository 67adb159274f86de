//! The parts in which an edict deals a rune.

ghost use Rattle.std.specs.Prelude.{◌≡◌, ℕ, suc, ◌-◌, ◌*◌, ◌^◌, ◌<◌, ◌≤◌, ◌∷◌, sum};
ghost use Rattle.std.specs.Option.{ForSome};
ghost use Rattle.ox_allocation.specs.Gifts.{even_parts, parts_of};
ghost use Rattle.ox_allocation.specs.Dealing.{next_parts};

/// The parts in which an edict deals a rune, one after the other.
#[derive(Clone, Copy)]
pub(crate) enum Parts {
    /// The same share to each, and one more to the first ones, so many.
    Even {
        /// What each gets.
        share: u128,
        /// How many get one more.
        extra: u128,
    },
    /// So much to each while it lasts.
    Each {
        /// What each gets.
        amount: u128,
        /// What is left.
        left: u128,
    },
}

/// What so much for each of so many comes to, where that is something, and there is enough of it.
pub(crate) fn sum_for_each(amount: u128, count: usize, left: u128) -> Option<u128>
    ensures sum { ForSome result (λ sum. sum ≡ count * amount) }
    ensures some { ForSome result (λ sum. 0 < sum) }
    ensures enough { ForSome result (λ sum. sum ≤ left) }
{
    let sum = amount.checked_mul(count as u128)?;
    if 0 < sum && sum <= left {
        Some(sum)
    } else {
        None
    }
}

/// The next part of an even split: the share and one more, as long as some are to get one more.
fn next_even(share: u128, extra: u128) -> u128
    requires { sum (even_parts share extra 1) < 2 ^ 128 }
    ensures { (count : ℕ) → even_parts share extra (suc count)
        ≡ result ∷ even_parts share (extra - 1) count }
{
    let more = extra > 0;
    if more { share + 1 } else { share }
}

impl Parts {
    /// The parts that so many outputs get of what is left of a rune: with amount 0 all of it
    /// evenly, else so much each.
    pub(crate) fn new(amount: u128, left: u128, count: usize) -> Parts
        requires { 0 < count }
        ensures { next_parts result count ≡ parts_of amount left count }
    {
        if amount == 0 {
            let count = count as u128;
            Parts::Even {
                share: left / count,
                extra: left % count,
            }
        } else {
            Parts::Each { amount, left }
        }
    }

    /// The next part.
    pub(crate) fn take_next(&mut self) -> u128
        requires { sum (next_parts self.old 1) < 2 ^ 128 }
        ensures { (count : ℕ) →
            next_parts self.old (suc count) ≡ result ∷ next_parts self.new count }
    {
        match *self {
            Parts::Even { share, extra } => {
                *self = Parts::Even {
                    share,
                    extra: extra.saturating_sub(1),
                };
                next_even(share, extra)
            }
            Parts::Each { amount, left } => {
                let part = amount.min(left);
                *self = Parts::Each {
                    amount,
                    left: left - part,
                };
                part
            }
        }
    }
}
