//! What is made of whole planes.
ghost use Rattle.std.specs.Prelude.{◌≡◌, IfOk};
ghost use Rattle.pl_grid.specs.Extent.{IsExtent, grown};
ghost use Rattle.pl_grid.specs.Planes.{empty_plane, eroded, dilated, difference, union_of, widened};

use crate::extent::Box2;
use crate::plane::Plane;
use crate::rows::{dilate_words, erode_words, widen_words};
use crate::words::{minus_words, union_words, zeros};
use pl_units::NoMemory;
use std::alloc::Global;

impl Plane {
    /// The plane of a box with no cell filled. The box has at most 8,192 columns and rows, and its corner
    /// lies from -65,536 to 65,536. Refused only for want of memory.
    pub fn empty(alloc: Global, bounds: Box2) -> Result<Plane, NoMemory>
        ensures { IfOk result (λ p. p ≡ empty_plane bounds) }
    {
        let words = zeros(alloc, bounds.all_words())?;
        Ok(Plane { bounds, words })
    }

    /// The filled cells whose four neighbours are filled, in the same box. A cell outside the box is not
    /// filled. Refused only for want of memory.
    pub fn erode(&self, alloc: Global) -> Result<Plane, NoMemory>
        ensures { IfOk result (λ p. p ≡ eroded self.now) }
    {
        let bounds = self.bounds;
        let words = erode_words(alloc, &self.words, bounds.row_words(), bounds.rows as usize)?;
        Ok(Plane { bounds, words })
    }

    /// The cells that are filled or have a filled neighbour among four, as far as the same box has them.
    /// Refused only for want of memory.
    pub fn dilate(&self, alloc: Global) -> Result<Plane, NoMemory>
        ensures { IfOk result (λ p. p ≡ dilated self.now) }
    {
        let bounds = self.bounds;
        let words = dilate_words(
            alloc,
            &self.words,
            bounds.row_words(),
            bounds.rows as usize,
            bounds.cols as usize,
        )?;
        Ok(Plane { bounds, words })
    }

    /// The filled cells that another plane of the same box lacks. Refused only for want of memory.
    pub fn minus(&self, alloc: Global, other: &Plane) -> Result<Plane, NoMemory>
        requires { self.now.bounds ≡ other.now.bounds }
        ensures { IfOk result (λ p. p ≡ difference self.now other.now) }
    {
        let words = minus_words(alloc, &self.words, &other.words)?;
        Ok(Plane {
            bounds: self.bounds,
            words,
        })
    }

    /// The cells that are filled in this plane or in another of the same box. Refused only for want of memory.
    pub fn union(&self, alloc: Global, other: &Plane) -> Result<Plane, NoMemory>
        requires { self.now.bounds ≡ other.now.bounds }
        ensures { IfOk result (λ p. p ≡ union_of self.now other.now) }
    {
        let words = union_words(alloc, &self.words, &other.words)?;
        Ok(Plane {
            bounds: self.bounds,
            words,
        })
    }

    /// The same filled cells in a box that has `by` columns and rows more on each side, where that is a box
    /// (at most 8,192 columns and rows, its corner from -65,536 to 65,536). Refused only for want of memory.
    pub fn widened(&self, alloc: Global, by: u32) -> Result<Plane, NoMemory>
        requires { IsExtent (grown by self.now.bounds) }
        ensures { IfOk result (λ p. p ≡ widened by self.now) }
    {
        let bounds = self.bounds;
        let grown = bounds.grown(by);
        let words = widen_words(
            alloc,
            &self.words,
            bounds.row_words(),
            bounds.rows as usize,
            by as usize,
            grown.row_words(),
        )?;
        Ok(Plane {
            bounds: grown,
            words,
        })
    }
}
