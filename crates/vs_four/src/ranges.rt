//! The indices of a declared range, and their places in a vector (IEEE 1364-2005, 4.3 and 5.2.1).

ghost use Rattle.std.specs.Prelude.{◌≡◌, ◌≤◌, ◌<◌, ◌^◌, pos, unsigned_abs, ◌-ℤ◌, if◌then◌else◌};
ghost use Rattle.vs_four.specs.Selects.{Part, is_descending, range_length, least_index, greatest_index};

use crate::Range;

impl Range {
    /// Whether the range is descending, as `[7:0]` is (IEEE 1364-2005, 4.3), or has one bit.
    pub fn is_descending(self) -> bool
        ensures { result ≡ is_descending self }
    {
        self.right <= self.left
    }

    /// How many bits a vector of this range has.
    pub fn length(self) -> u64
        ensures { result ≡ range_length self }
    {
        if self.is_descending() {
            u64::from(self.left - self.right) + 1
        } else {
            u64::from(self.right - self.left) + 1
        }
    }

    /// The index of the least significant bit of the part of `width` bits that goes up from `base`, or
    /// down where not `up` (IEEE 1364-2005, 5.2.1): its least index in a descending range, and its
    /// greatest in an ascending one.
    pub fn lowest_index(self, base: i128, up: bool, width: u32) -> i128
        requires some { 1 ≤ width }
        requires at_most_64 { width ≤ 64 }
        requires fits { unsigned_abs base < 2 ^ 64 }
        ensures value { let p : Part = record { range = self; up = up; width = width } in result ≡ (if is_descending self then least_index p base else greatest_index p base) }
        ensures fits { unsigned_abs result < 2 ^ 65 }
    {
        let descending = self.is_descending();
        let spread = width as i128 - 1;
        if descending && !up {
            base - spread
        } else if !descending && up {
            base + spread
        } else {
            base
        }
    }

    /// The place of this index, from that of the least significant bit up. It is negative or too great
    /// where the range has no such index.
    pub fn place(self, index: i128) -> i128
        requires { unsigned_abs index < 2 ^ 65 }
        ensures value { result ≡ (if is_descending self then (index -ℤ pos self.right) else (pos self.right -ℤ index)) }
        ensures fits { unsigned_abs result < 2 ^ 66 }
    {
        if self.is_descending() {
            index - self.right as i128
        } else {
            self.right as i128 - index
        }
    }
}
