//! The runs of filled cells along the lines of a plane.
ghost use Rattle.std.specs.Prelude.{◌≡◌, ◌+◌, ◌<◌, ◌≤◌, ◌++◌, ◌+ℤ◌, pos, ℕ, false, slice_index_or, drop, IfOk};
ghost use Rattle.std.specs.List.{prefix_len};
ghost use Rattle.pl_grid.specs.Extent.{Extent};
ghost use Rattle.pl_grid.specs.Lines.{line_count, line_length, first_line, first_place, filled_on, line_cells, line_runs, run_between};
ghost use Rattle.pl_grid.specs.Strokes.{runs_of};

use crate::extent::Box2;
use crate::plane::Plane;
use crate::stroke::{Axis, Run};
use pl_units::NoMemory;
use std::alloc::Global;

impl Box2 {
    /// How many lines the box has along an axis, 0 to 8,192.
    pub fn line_count(self, along: Axis) -> u32
        ensures { result ≡ line_count along self }
    {
        match along {
            Axis::Rows => self.rows,
            Axis::Columns => self.cols,
        }
    }

    /// The line with a number, counted from the least line of the box.
    pub fn line(self, along: Axis, number: u32) -> i32
        requires { number < line_count along self }
        ensures { result ≡ first_line along self +ℤ pos number }
    {
        match along {
            Axis::Rows => self.y0 + number as i32,
            Axis::Columns => self.x0 + number as i32,
        }
    }

    /// How many cells each line has.
    fn line_length(self, along: Axis) -> u32
        ensures { result ≡ line_length along self }
    {
        match along {
            Axis::Rows => self.cols,
            Axis::Columns => self.rows,
        }
    }

    /// Where a line's cell with a number lies along the line.
    fn place_on(self, along: Axis, number: u32) -> i32
        requires { number < line_length along self }
        ensures { result ≡ first_place along self +ℤ pos number }
    {
        match along {
            Axis::Rows => self.x0 + number as i32,
            Axis::Columns => self.y0 + number as i32,
        }
    }
}

impl Plane {
    /// The runs of the filled cells along an axis, line by line from the least line, and in a line by their
    /// first cells. Every longest row of filled cells is one run, and no cell is in two.
    /// Refused only for want of memory.
    pub fn runs(&self, alloc: Global, along: Axis) -> Result<Vec<Run>, NoMemory>
        ensures { IfOk result (λ v. v.items ≡ runs_of along self.now) }
    {
        let bounds = self.bounds();
        let mut runs = Vec::new(alloc);
        for number in 0..bounds.line_count(along) {
            let line = bounds.line(along, number);
            Line {
                plane: self,
                along,
                line,
            }
            .put_runs(&mut runs)?;
        }
        Ok(runs)
    }

    /// The runs of one line, by their first cells; none where the box lacks the line.
    /// Refused only for want of memory.
    pub fn runs_in(&self, alloc: Global, along: Axis, line: i32) -> Result<Vec<Run>, NoMemory>
        ensures { IfOk result (λ v. v.items ≡ line_runs along self.now line) }
    {
        let mut runs = Vec::new(alloc);
        Line {
            plane: self,
            along,
            line,
        }
        .put_runs(&mut runs)?;
        Ok(runs)
    }
}

/// One line of a plane's cells, which are numbered from the first of the box.
#[derive(Clone, Copy)]
struct Line<'a> {
    plane: &'a Plane,
    along: Axis,
    line: i32,
}

impl Line<'_> {
    /// Appends the runs of the line.
    fn put_runs(&self, runs: &mut Vec<Run>) -> Result<(), NoMemory>
        ensures { IfOk result (λ _. runs.new.items ≡ runs.old.items ++ line_runs self.now.along self.now.plane.now self.now.line) }
    {
        let length = self.length();
        let mut at = 0;
        while at < length {
            if !self.is_filled(at) {
                at += self.alike(at);
                continue;
            }
            let end = self.run_end(at);
            runs.push(self.run(at, end))?;
            at = end;
        }
        Ok(())
    }

    /// The run from one cell to the last before another.
    fn run(&self, first: u32, end: u32) -> Run
        requires some { first < end }
        requires within { end ≤ line_length self.now.along self.now.plane.now.bounds }
        ensures { result ≡ run_between self.now.line (first_place self.now.along self.now.plane.now.bounds) first end }
    {
        let bounds = self.plane.bounds();
        Run {
            line: self.line,
            first: bounds.place_on(self.along, first),
            last: bounds.place_on(self.along, end - 1),
        }
    }

    /// The number of the first cell that is not filled, from a cell on.
    fn run_end(&self, first: u32) -> u32
        requires { first ≤ line_length self.now.along self.now.plane.now.bounds }
        ensures { result ≡ first + prefix_len (λ b. b) (drop first (line_cells self.now.along self.now.plane.now self.now.line)) }
    {
        let length = self.length();
        let mut end = first;
        while end < length && self.is_filled(end) {
            end += self.alike(end);
        }
        end
    }

    /// How many cells there are.
    fn length(&self) -> u32
        ensures { result ≡ line_length self.now.along self.now.plane.now.bounds }
    {
        self.plane.bounds().line_length(self.along)
    }

    /// The cell with a number is filled.
    fn is_filled(&self, number: u32) -> bool
        requires { number < line_length self.now.along self.now.plane.now.bounds }
        ensures { result ≡ slice_index_or (line_cells self.now.along self.now.plane.now self.now.line) number false }
    {
        self.is_filled_on(self.plane.bounds().place_on(self.along, number))
    }

    /// How many cells from one on are known to be like it, the first among them.
    fn alike(&self, number: u32) -> u32
        requires { number < line_length self.now.along self.now.plane.now.bounds }
        ensures some { 0 < result }
        ensures within { number + result ≤ line_length self.now.along self.now.plane.now.bounds }
        ensures alike { (k : ℕ) → number ≤ k → k < number + result → slice_index_or (line_cells self.now.along self.now.plane.now self.now.line) k false ≡ slice_index_or (line_cells self.now.along self.now.plane.now self.now.line) number false }
    {
        match self.along {
            Axis::Rows => self.plane.alike_in_row(number, self.line),
            Axis::Columns => 1,
        }
    }

    /// The cell at a place along the line is filled.
    fn is_filled_on(&self, place: i32) -> bool
        ensures { result ≡ filled_on self.now.along self.now.plane.now self.now.line place }
    {
        match self.along {
            Axis::Rows => self.plane.get(place, self.line),
            Axis::Columns => self.plane.get(self.line, place),
        }
    }
}
