//! What holds of the boundary edges of every plane.
ghost use Rattle.pl_grid.specs.Planes.{Cells};
ghost use Rattle.pl_rings.specs.Laws.{NextPermutes, CyclesPartition};

/// A law: in every plane the step from a boundary edge to the following one permutes the boundary edges, and
/// each boundary edge stands once in the cycles that the loops are written from.
pub fn boundary_edges_go_round()
    ensures permuted { (p : Cells) → NextPermutes p }
    ensures partition { (p : Cells) → CyclesPartition p }
{}
