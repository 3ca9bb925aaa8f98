// The polygon of a fit: two chains of ends of ranges, each a part of a slice, and two lines.
use values::Line;

// The entries of a slice from start up to, not including, end.
#[derive(Clone, Copy)]
pub struct Part {
    pub start: usize,
    pub end: usize,
}

// The chains of high ends and of low ends, the line of least slope and the line of greatest slope.
#[derive(Clone, Copy)]
pub struct Polygon {
    pub upper: Part,
    pub lower: Part,
    pub slow: Line,
    pub fast: Line,
}
