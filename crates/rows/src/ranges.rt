// Whether the bytes of the pixels that a lane takes lie apart from those of the pixels that it makes.

ghost use Rattle.std.specs.Prelude.{◌≡◌, ℕ, ◌^◌, ◌<◌, true, ◌≢◌};
ghost use Rattle.pixels.specs.Inner.{place_at};
ghost use Rattle.rows.specs.Inner.{along, Reach};

use crate::Lane;

// Whether every byte of so many pixels that one lane takes lies below all those of another.
fn is_below(a: Lane, b: Lane, count: u32) -> bool
    requires { (0 < count) × Reach a.back a.from count (2 ^ 32) × Reach b.back b.from count (2 ^ 32) }
    ensures { result ≡ true → (i j : ℕ) → i < count → j < count
        → place_at a.format a.source (along a.back a.from i) < place_at b.format b.source (along b.back b.from j) }
{
    let highest = a.source_end(!a.back, count);
    let lowest = b.source_end(b.back, count);
    highest < lowest
}

// Whether no byte of the pixels that a lane takes, of this format, lies among those that it makes.
pub fn is_apart(lane: Lane, order: u8, count: u32) -> bool
    requires { (0 < count) × Reach lane.back lane.from count (2 ^ 32) × Reach lane.back lane.to count (2 ^ 32) }
    ensures { result ≡ true → (i j : ℕ) → i < count → j < count
        → place_at order lane.source (along lane.back lane.from i)
        ≢ place_at lane.format lane.destination (along lane.back lane.to j) }
{
    let taken = Lane {
        format: order,
        ..lane
    };
    let made = Lane {
        source: lane.destination,
        from: lane.to,
        ..lane
    };
    is_below(taken, made, count) | is_below(made, taken, count)
}
