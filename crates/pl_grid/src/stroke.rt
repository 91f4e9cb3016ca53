//! Runs, strokes and corners of cells.

/// Along which lines of cells a run or a stroke goes.
#[derive(Clone, Copy, Debug, PartialEq, Eq)]
pub enum Axis {
    Rows,
    Columns,
}

/// Filled cells of one line, from the first to the last, in cells: along rows the line is a row and the cells
/// are columns, along columns the other way. The cells before the first and after the last are empty.
#[derive(Clone, Copy, Debug, PartialEq, Eq)]
pub struct Run {
    pub line: i32,
    pub first: i32,
    pub last: i32,
}

/// A corner of cells, counted in cells: the corner 0 0 is the left and lower corner of the cell 0 0.
#[derive(Clone, Copy, Debug, PartialEq, Eq)]
pub struct Corner {
    pub x: i32,
    pub y: i32,
}

/// A straight move with extrusion, from one end to the other, counted in half cells: the cell 0 0 reaches from
/// 0 0 to 2 2, and its middle is 1 1.
#[derive(Clone, Copy, Debug, PartialEq, Eq)]
pub struct Stroke {
    pub x0: i32,
    pub y0: i32,
    pub x1: i32,
    pub y1: i32,
}
