ghost use Rattle.std.specs.Prelude.{◌≡◌};
ghost use Rattle.parts.specs.Drawings.{unfinished, inside_of};

// The drawing in hand, with its counters: positions done in this line, code or row, and codes or rows done. A line that draws an
// area boundary keeps whether the step to its position rose to another row, and an area fill whether it is inside.
#[derive(Clone, Copy)]
pub enum Drawing {
    Nothing { stopped: bool },
    Line { rose: bool, done: u16 },
    Codes { count: u8, code: u16, done: u16 },
    Block { inside: bool, column: u16, row: u16 },
}

// Whether a drawing is in hand.
pub fn is_unfinished(drawing: Drawing) -> bool
    ensures { result ≡ unfinished drawing }
{
    !matches!(drawing, Drawing::Nothing { .. })
}

// Whether an area fill is inside.
#[tactic(auto, unfolding(crate::specs::Drawings::inside_of))]
pub fn is_inside(drawing: Drawing) -> bool
    ensures { result ≡ inside_of drawing }
{
    matches!(drawing, Drawing::Block { inside: true, .. })
}
