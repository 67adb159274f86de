//! Groups of five bits and of eight.

ghost use Rattle.std.specs.Prelude.{◌≡◌, ◌+◌, ◌-◌, ◌*◌, ◌/◌, ◌%◌, ◌^◌, ◌<◌, ◌≤◌};

/// At most twelve bits that wait for more to fill a byte or a group of five.
#[derive(Clone, Copy)]
pub(crate) struct Bits {
    pub(crate) value: u32,
    pub(crate) count: u32,
}

impl Bits {
    /// No bits.
    pub(crate) fn none() -> Self
        ensures value { result.value ≡ 0 }
        ensures count { result.count ≡ 0 }
    {
        Bits { value: 0, count: 0 }
    }

    /// With so many bits behind.
    #[inline(always)]
    pub(crate) fn with(self, width: u32, digit: u8) -> Self
        requires within { self.value < 2 ^ self.count }
        requires few { self.count + width ≤ 12 }
        requires fits { digit < 2 ^ width }
        ensures value { result.value ≡ self.value * 2 ^ width + digit }
        ensures count { result.count ≡ self.count + width }
        ensures within { result.value < 2 ^ result.count }
    {
        Bits {
            value: (self.value << width) + digit as u32,
            count: self.count + width,
        }
    }

    /// Takes so many bits from the front.
    #[inline(always)]
    pub(crate) fn take_front(&mut self, width: u32) -> u8
        requires within { self.old.value < 2 ^ self.old.count }
        requires few { self.old.count ≤ 12 }
        requires some { width ≤ self.old.count }
        requires narrow { width ≤ 8 }
        ensures split { self.old.value ≡ result * 2 ^ self.new.count + self.new.value }
        ensures narrow { result < 2 ^ width }
        ensures count { self.new.count + width ≡ self.old.count }
        ensures within { self.new.value < 2 ^ self.new.count }
    {
        let count = self.count - width;
        let front = self.value >> count;
        let value = self.value & ((1 << count) - 1);
        *self = Bits { value, count };
        front as u8
    }
}
