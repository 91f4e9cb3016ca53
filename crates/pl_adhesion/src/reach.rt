//! How far the filled cells of a plane reach.
ghost use Rattle.std.specs.Prelude.{◌≡◌, IfSome, MatchOption};
ghost use Rattle.pl_adhesion.specs.Bed.{IsBare, IsOnBed};
ghost use Rattle.pl_adhesion.specs.Reach.{reach_if, reach_with, span_with, IsNearReach};

use crate::cells::{Cell, alike_from, cell_at, cell_count, has};
use pl_grid::Plane;

/// The least and the greatest of some columns or rows.
#[derive(Clone, Copy)]
pub(crate) struct Span {
    pub least: i32,
    pub greatest: i32,
}

/// The columns and the rows that have filled cells.
#[derive(Clone, Copy)]
pub(crate) struct Reach {
    pub columns: Span,
    pub rows: Span,
}

impl Span {
    /// The span that has one number more.
    fn with(&self, number: &i32) -> Span
        ensures { result ≡ span_with self.now number.now }
    {
        Span {
            least: self.least.min(*number),
            greatest: self.greatest.max(*number),
        }
    }
}

/// The reach of one cell more.
fn with_cell(reach: &Option<Reach>, cell: &Cell) -> Reach
    ensures { result ≡ reach_with reach.now cell.now.x cell.now.y }
{
    match reach {
        None => Reach {
            columns: Span {
                least: cell.x,
                greatest: cell.x,
            },
            rows: Span {
                least: cell.y,
                greatest: cell.y,
            },
        },
        Some(before) => Reach {
            columns: before.columns.with(&cell.x),
            rows: before.rows.with(&cell.y),
        },
    }
}

/// The reach of a plane's filled cells, where it has any. The plane's box lies inside the bed.
pub(crate) fn filled_reach(plane: &Plane) -> Option<Reach>
    requires { IsOnBed plane.now.bounds }
    ensures value { result ≡ reach_if plane.now }
    ensures none { MatchOption result (IsBare plane.now) (λ _. IsBare plane.now → ⊥) }
    ensures near { IfSome result IsNearReach }
{
    let bounds = plane.bounds();
    let count = cell_count(bounds);
    let mut reach = None;
    let mut place = 0;
    while place < count {
        let cell = cell_at(bounds, place);
        if !has(plane, &cell) {
            place += alike_from(plane, place);
            continue;
        }
        reach = Some(with_cell(&reach, &cell));
        place += 1;
    }
    reach
}
