//! Lists of loops, strokes and surfaces, one for each layer.
ghost use Rattle.std.specs.Prelude.{◌≡◌};

use pl_fill::SurfaceSet;
use pl_grid::{Loop, Stroke};
use std::marker::Model;

/// Loops in order.
#[derive(Debug, Drop)]
pub struct Loops {
    loops: Vec<Loop>,
}

impl Model for Loops {
    ghost use Rattle.std.specs.Prelude.{List};
    ghost use Rattle.pl_grid.specs.declared.stroke.Corner.{Corner};

    ghost Value = { List (List Corner) };

    ghost view = { λ l. l.loops.items };
}

impl Loops {
    /// The list of these loops. It takes no memory.
    pub fn of(loops: Vec<Loop>) -> Loops
        ensures { result ≡ loops.items }
    {
        Loops { loops }
    }

    /// The loops in order.
    pub fn loops(&self) -> &[Loop]
        ensures { result.now ≡ self.now }
    {
        self.loops.as_slice()
    }
}

/// The loops of each layer, from the lowest on.
#[derive(Debug, Drop)]
pub struct LoopLists {
    lists: Vec<Loops>,
}

impl Model for LoopLists {
    ghost use Rattle.std.specs.Prelude.{List};
    ghost use Rattle.pl_grid.specs.declared.stroke.Corner.{Corner};

    ghost Value = { List (List (List Corner)) };

    ghost view = { λ l. l.lists.items };
}

impl LoopLists {
    /// The list of the layers' lists. It takes no memory.
    pub fn of(lists: Vec<Loops>) -> LoopLists
        ensures { result ≡ lists.items }
    {
        LoopLists { lists }
    }

    /// The layers' lists in order.
    pub fn lists(&self) -> &[Loops]
        ensures { result.now ≡ self.now }
    {
        self.lists.as_slice()
    }
}

/// Strokes in order, in half cells.
#[derive(Debug, Drop)]
pub struct Strokes {
    strokes: Vec<Stroke>,
}

impl Model for Strokes {
    ghost use Rattle.std.specs.Prelude.{List};
    ghost use Rattle.pl_grid.specs.declared.stroke.Stroke.{Stroke};

    ghost Value = { List Stroke };

    ghost view = { λ s. s.strokes.items };
}

impl Strokes {
    /// The list of these strokes. It takes no memory.
    pub fn of(strokes: Vec<Stroke>) -> Strokes
        ensures { result ≡ strokes.items }
    {
        Strokes { strokes }
    }

    /// The strokes in order.
    pub fn strokes(&self) -> &[Stroke]
        ensures { result.now ≡ self.now }
    {
        self.strokes.as_slice()
    }
}

/// The strokes of each layer, from the lowest on.
#[derive(Debug, Drop)]
pub struct StrokeLists {
    lists: Vec<Strokes>,
}

impl Model for StrokeLists {
    ghost use Rattle.std.specs.Prelude.{List};
    ghost use Rattle.pl_grid.specs.declared.stroke.Stroke.{Stroke};

    ghost Value = { List (List Stroke) };

    ghost view = { λ l. l.lists.items };
}

impl StrokeLists {
    /// The list of the layers' lists. It takes no memory.
    pub fn of(lists: Vec<Strokes>) -> StrokeLists
        ensures { result ≡ lists.items }
    {
        StrokeLists { lists }
    }

    /// The layers' lists in order.
    pub fn lists(&self) -> &[Strokes]
        ensures { result.now ≡ self.now }
    {
        self.lists.as_slice()
    }
}

/// The surfaces of each layer, from the lowest on.
#[derive(Debug, Drop)]
pub struct Surfaces {
    sets: Vec<SurfaceSet>,
}

impl Model for Surfaces {
    ghost use Rattle.std.specs.Prelude.{List};
    ghost use Rattle.pl_fill.specs.declared.surface.SurfaceSet.{SurfaceSet};

    ghost Value = { List SurfaceSet };

    ghost view = { λ l. l.sets.items };
}

impl Surfaces {
    /// The list of the layers' surfaces. It takes no memory.
    pub fn of(sets: Vec<SurfaceSet>) -> Surfaces
        ensures { result ≡ sets.items }
    {
        Surfaces { sets }
    }

    /// The layers' surfaces in order.
    pub fn sets(&self) -> &[SurfaceSet]
        ensures { result.now ≡ self.now }
    {
        self.sets.as_slice()
    }
}
