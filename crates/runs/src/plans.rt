// What the rows of a drawing have in common, worked once.

ghost use Rattle.std.specs.Prelude.{◌≡◌, true, false, ◌&&◌, nat_lt};
ghost use Rattle.numbers.specs.Choose.{choose};
ghost use Rattle.runs.specs.Inner as inner;
ghost use Rattle.runs.specs.Inner.{low_edge, mask_end, high_edge, is_free, goes_in_rows, is_plain, is_blended, is_inked, is_expanded, has_rows, has_inks, has_strokes, taken_map, RowPlanned, StrokePlanned, Planned, BlendOf, RowBlended, Blended};

use moves::{Course, Turn};
use parts::drawing::Drawing;
use pixels::{Map, bits_of};
use places::decoded::{named_mask, named_mode};
use places::{Brush, MaskMode, Mode, Setup};
use position::Blends;
use rows::Whole;
use rows::wholes::whole_of;

// What the pixels of a row are made of beside themselves: of nothing, of the source's pixels, or of the pattern's.
#[derive(Clone, Copy)]
pub enum Taken {
    Own,
    Source,
    Pattern,
}

// What the rows of a drawing have in common: what they take and of which map, whether they go back, the first and the last column that
// may be painted, and the blends of whole bytes, of the foreground and of the background.
#[derive(Clone, Copy)]
pub struct RowPlan {
    pub takes: Taken,
    pub map: Map,
    pub back: bool,
    pub left: u16,
    pub right: u16,
    pub front: Whole,
    pub rear: Whole,
}

// What the strokes of a drawing have in common: the first and the last column and row that may be painted, and the blend of whole
// bytes.
#[derive(Clone, Copy)]
pub struct StrokePlan {
    pub left: u16,
    pub right: u16,
    pub top: u16,
    pub bottom: u16,
    pub whole: Whole,
}

// How a drawing is drawn: as rows, as strokes, or position by position.
#[derive(Clone, Copy)]
pub enum Plan {
    Rows(RowPlan),
    Strokes(StrokePlan),
    Singly,
}

// Whether no position is kept back by a mask pixel or by the condition.
fn is_free(brush: Brush) -> bool
    ensures { result ≡ is_free brush }
{
    (named_mask(brush.mask.mode) != MaskMode::Enabled) & (brush.colours.compare.condition == 4)
}

// Whether every position is of the foreground, and none is kept back by a mask pixel or by the condition.
fn is_plain(setup: Setup) -> bool
    ensures { result ≡ is_plain setup }
{
    let brush = setup.brush;
    (!brush.flow.fills & !setup.travel.pattern.used & !brush.flow.derived) & is_free(brush)
}

// Whether the mix is logical, of pixels of the map's size, and a source pixel is of the destination's format.
fn is_blended(setup: Setup) -> bool
    ensures { result ≡ is_blended setup }
{
    let brush = setup.brush;
    ((brush.colours.foreground.mix < 16) & (brush.depth.bits == bits_of(brush.destination.format)))
        & (!brush.flow.foreground | (setup.travel.source.map.format == brush.destination.format))
}

// Whether a turn moves.
pub(crate) fn goes_across(turn: Turn) -> bool
    ensures { result ≡ inner.goes_across turn }
{
    !matches!(turn, Turn::Stay)
}

// Whether it goes back.
pub(crate) fn goes_back(turn: Turn) -> bool
    ensures { result ≡ inner.goes_back turn }
{
    matches!(turn, Turn::Back)
}

// Whether a drawing goes row by row, on either side of the map's left edge.
fn goes_in_rows(setup: Setup) -> bool
    ensures { result ≡ goes_in_rows setup }
{
    (setup.brush.edge < 0) & goes_across(setup.travel.course.x)
}

// Whether rows are drawn as rows.
fn has_rows(setup: Setup) -> bool
    ensures { result ≡ has_rows setup }
{
    is_plain(setup) & is_blended(setup) & goes_in_rows(setup)
}

// Whether every position is of the ink that its pattern pixel picks, neither takes the source pixel, and none is kept back.
fn is_inked(setup: Setup) -> bool
    ensures { result ≡ is_inked setup }
{
    let brush = setup.brush;
    ((!brush.flow.fills & setup.travel.pattern.used)
        & (!brush.flow.foreground & !brush.flow.background))
        & is_free(brush)
}

// Whether both mixes are logical, of pixels of the map's size, which is a byte, and a pattern pixel is a bit.
fn is_expanded(setup: Setup) -> bool
    ensures { result ≡ is_expanded setup }
{
    let brush = setup.brush;
    let bits = bits_of(brush.destination.format);
    (((brush.colours.foreground.mix < 16) & (brush.colours.background.mix < 16))
        & (brush.depth.bits == bits))
        & ((bits == 8) & (bits_of(setup.travel.pattern.map.format) == 1))
}

// Whether rows are drawn through a pattern.
fn has_inks(setup: Setup) -> bool
    ensures { result ≡ has_inks setup }
{
    is_inked(setup) & is_expanded(setup) & goes_in_rows(setup)
}

// Whether a straight step is a part of the turned one.
fn agrees(straight: Turn, turned: Turn) -> bool
    ensures { result ≡ inner.agrees straight turned }
{
    match straight {
        Turn::Stay => true,
        Turn::Forth => matches!(turned, Turn::Forth),
        Turn::Back => goes_back(turned),
    }
}

// Whether each step of a line moves the destination, by parts of one step.
fn is_straight(course: Course) -> bool
    ensures { result ≡ inner.is_straight course }
{
    (!course.read & !course.bounds)
        & (agrees(course.straight.x, course.x) & agrees(course.straight.y, course.y))
}

// Whether lines and codes are drawn as strokes.
fn has_strokes(setup: Setup) -> bool
    ensures { result ≡ has_strokes setup }
{
    let flow = setup.brush.flow;
    is_plain(setup)
        & is_blended(setup)
        & ((setup.brush.edge < 0) & is_straight(setup.travel.course))
        & ((!setup.travel.source.used & !flow.foreground)
            & (named_mode(flow.mode) == Mode::AllPixels))
}

// The first column or row inside the mask boundary.
fn low_edge(mode: MaskMode, origin: u16) -> u16
    ensures { result ≡ low_edge mode origin }
{
    if mode == MaskMode::Disabled {
        0
    } else {
        origin
    }
}

// The last column or row of the mask boundary, and the circle's where there is none.
fn mask_end(mode: MaskMode, origin: u16, extent: u16) -> u32
    ensures { result ≡ mask_end mode origin extent }
{
    if mode == MaskMode::Disabled {
        6143
    } else {
        origin as u32 + extent as u32
    }
}

// The last column or row inside the map and the mask boundary, on the circle.
fn high_edge(last: u16, mode: MaskMode, origin: u16, extent: u16) -> u16
    ensures { result ≡ high_edge last mode origin extent }
{
    (last as u32).min(6143).min(mask_end(mode, origin, extent)) as u16
}

// The widest rows, less one, that are drawn position by position.
const NARROW: u16 = 2;

// Whether a drawing is a block of rows that are wide enough.
fn is_wide(setup: Setup, drawing: Drawing) -> bool
    ensures { result ≡ (nat_lt 2 setup.travel.figure.dimensions.x && inner.is_block drawing) }
{
    (NARROW < setup.travel.figure.dimensions.x) & matches!(drawing, Drawing::Block { .. })
}

// Whether a drawing is a line or codes.
fn is_stroke(drawing: Drawing) -> bool
    ensures { result ≡ inner.is_stroke drawing }
{
    matches!(drawing, Drawing::Line { .. } | Drawing::Codes { .. })
}

// What the rows of a drawing take.
fn taken_of(setup: Setup, inks: bool) -> Taken
    ensures { result ≡ choose inks Taken.Pattern (choose setup.brush.flow.foreground Taken.Source Taken.Own) }
{
    if inks {
        Taken::Pattern
    } else if setup.brush.flow.foreground {
        Taken::Source
    } else {
        Taken::Own
    }
}

// The map whose pixels a row takes beside its own.
fn taken_map(setup: Setup, taken: Taken) -> Map
    ensures { result ≡ taken_map setup taken }
{
    match taken {
        Taken::Own => setup.brush.destination,
        Taken::Source => setup.travel.source.map,
        Taken::Pattern => setup.travel.pattern.map,
    }
}

// The plan of rows, through a pattern or not.
fn row_plan(setup: Setup, blends: Blends, inks: bool) -> RowPlan
    requires { (inks ≡ false → has_rows setup ≡ true) × (inks ≡ true → has_inks setup ≡ true) }
    ensures { RowPlanned setup result × RowBlended setup blends result }
{
    let mask = setup.brush.mask;
    let mode = named_mask(mask.mode);
    let takes = taken_of(setup, inks);
    RowPlan {
        takes,
        map: taken_map(setup, takes),
        back: goes_back(setup.travel.course.x),
        left: low_edge(mode, mask.origin.x),
        right: high_edge(
            setup.brush.destination.width,
            mode,
            mask.origin.x,
            mask.map.width,
        ),
        front: whole_of(setup.brush.destination.format, blends.foreground),
        rear: whole_of(setup.brush.destination.format, blends.background),
    }
}

// The plan of strokes.
fn stroke_plan(setup: Setup, blends: Blends) -> StrokePlan
    requires { has_strokes setup ≡ true }
    ensures { StrokePlanned setup result × BlendOf setup blends.foreground result.whole }
{
    let mask = setup.brush.mask;
    let mode = named_mask(mask.mode);
    StrokePlan {
        left: low_edge(mode, mask.origin.x),
        right: high_edge(
            setup.brush.destination.width,
            mode,
            mask.origin.x,
            mask.map.width,
        ),
        top: low_edge(mode, mask.origin.y),
        bottom: high_edge(
            setup.brush.destination.height,
            mode,
            mask.origin.y,
            mask.map.height,
        ),
        whole: whole_of(setup.brush.destination.format, blends.foreground),
    }
}

// The plan of a drawing.
pub(crate) fn plan_of(setup: Setup, blends: Blends, drawing: Drawing) -> Plan
    ensures { Planned setup result × Blended setup blends result }
{
    let inks = has_inks(setup);
    if is_wide(setup, drawing) & (inks | has_rows(setup)) {
        return Plan::Rows(row_plan(setup, blends, inks));
    }
    if is_stroke(drawing) & has_strokes(setup) {
        return Plan::Strokes(stroke_plan(setup, blends));
    }
    Plan::Singly
}
