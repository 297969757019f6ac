// The registers in groups: what changes together, or is asked together, stands together.

// E, K1 and K2.
#[derive(Clone, Copy, Default)]
pub struct Terms {
    pub e: i32,
    pub k1: i32,
    pub k2: i32,
}

// A mix code and a colour, of the foreground or the background.
#[derive(Clone, Copy, Default)]
pub struct Ink {
    pub mix: u8,
    pub colour: u32,
}

// The compare condition and its value.
#[derive(Clone, Copy, Default)]
pub struct Compare {
    pub condition: u8,
    pub value: u32,
}

// What goes by X and Y. Of two numbers of 12 bits it is dimensions 1 and 2, the mask's origin, or a pointer into a map; of two signed ones
// the destination pointer.
#[derive(Clone, Copy, Default)]
pub struct Point<T> {
    pub x: T,
    pub y: T,
}

// What a pixel is worked from: mixes, colours, the comparison, the plane mask and the carry mask.
#[derive(Clone, Copy, Default)]
pub struct Colours {
    pub foreground: Ink,
    pub background: Ink,
    pub compare: Compare,
    pub planes: u32,
    pub carries: u32,
}

// What is drawn: the pixel operations, the direction steps, the dimensions, and where the mask lies.
#[derive(Clone, Copy, Default)]
pub struct Figure {
    pub operations: u32,
    pub steps: u32,
    pub dimensions: Point<u16>,
    pub origin: Point<u16>,
}

// The pointers, which a drawing moves.
#[derive(Clone, Copy, Default)]
pub struct Pointers {
    pub source: Point<u16>,
    pub pattern: Point<u16>,
    pub destination: Point<i16>,
}

// Every register but those of the maps.
#[derive(Clone, Copy, Default)]
pub struct Registers {
    pub index: u8,
    pub terms: Terms,
    pub colours: Colours,
    pub figure: Figure,
    pub pointers: Pointers,
}
