// Where a lane's pixels lie: their numbers, and how many of them fill bytes or lie in one.

ghost use Rattle.std.specs.Prelude.{◌≡◌, ◌+◌, ◌*◌, ◌/◌, ◌^◌, ◌<◌, ◌≤◌};
ghost use Rattle.pixels.specs.Maps.{bits_of};
ghost use Rattle.rows.specs.Inner as inner;
ghost use Rattle.rows.specs.Inner.{along, Reach, gone_at, First, from_top, edge_from, source_end};

use crate::Lane;
use crate::bytes::place;
use pixels::{bits_of, is_motorola, place_at};

// The i-th number from n on, back or forth.
fn step(back: bool, n: u32, i: u32) -> u32
    requires { Reach back n (i + 1) (2 ^ 32) }
    ensures { result ≡ along back n i }
{
    place(back, n as usize, i as usize) as u32
}

impl Lane {
    // Whether it goes through its bytes from the top.
    pub(crate) fn is_from_top(self) -> bool
        ensures { result ≡ from_top self.back self.format }
    {
        let motorola = is_motorola(self.format);
        if self.back { !motorola } else { motorola }
    }

    // How far up so many pixels of a byte begin, behind those that are passed.
    pub(crate) fn edge_from(self, passed: u32, count: u32) -> u32
        requires { (passed + count) * bits_of self.format ≤ 8 }
        ensures { result ≡ edge_from (from_top self.back self.format) (bits_of self.format) passed count }
    {
        let bits = bits_of(self.format);
        if self.is_from_top() {
            8 - (passed + count) * bits
        } else {
            passed * bits
        }
    }

    // How many pixels of its byte it has passed.
    pub(crate) fn gone(self) -> u32
        ensures { result ≡ gone_at self.back self.format self.to }
    {
        let last: u32 = 7 >> (self.format % 4);
        let within = self.to & last;
        if self.back { last - within } else { within }
    }

    // How many pixels come before the first that begins a byte, and no more than there are.
    pub(crate) fn lead(self, count: u32) -> u32
        requires { Reach self.back self.to count (2 ^ 32) }
        ensures { (result ≤ count)
            × (result < count → First self.back self.format (along self.back self.to result))
            × ((gone_at self.back self.format self.to + result) * bits_of self.format ≤ 8) }
    {
        let passed = self.gone();
        if passed == 0 {
            return 0;
        }
        let whole: u32 = 8 >> (self.format % 4);
        if whole - passed < count {
            whole - passed
        } else {
            count
        }
    }

    // The lane from its n-th pixel on.
    pub(crate) fn onward(self, n: u32) -> Lane
        requires { Reach self.back self.from (n + 1) (2 ^ 32) × Reach self.back self.to (n + 1) (2 ^ 32) }
        ensures { result ≡ inner.onward self n }
    {
        Lane {
            from: step(self.back, self.from, n),
            to: step(self.back, self.to, n),
            ..self
        }
    }

    // How many bytes so many pixels fill.
    pub(crate) fn bytes_in(self, count: u32) -> u32
        ensures { result ≡ count / (8 / bits_of self.format) }
    {
        count >> (3 - self.format % 4)
    }

    // How many pixels fill so many bytes.
    pub(crate) fn pixels_in(self, bytes: u32) -> u32
        requires { bytes * (8 / bits_of self.format) < 2 ^ 32 }
        ensures { result ≡ bytes * (8 / bits_of self.format) }
    {
        bytes << (3 - self.format % 4)
    }

    // The byte of the first or the last of so many pixels that it takes.
    pub(crate) fn source_end(self, last: bool, count: u32) -> usize
        requires { (0 < count) × Reach self.back self.from count (2 ^ 32) }
        ensures { result ≡ source_end self last count }
    {
        let i: u32 = if last { count - 1 } else { 0 };
        place_at(self.format, self.source, step(self.back, self.from, i))
    }
}
