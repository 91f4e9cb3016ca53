//! The jobs of slots: each holds the results that its slot needs, and its options as numbers.
ghost use Rattle.std.specs.Prelude.{◌≡◌, ◌≤◌, ◌<◌, length, AllPairs};
ghost use Rattle.std.specs.List.{All};
ghost use Rattle.pl_layers.specs.Heights.{AreHeights};
ghost use Rattle.pl_fill.specs.Surfaces.{HaveEqualBoxes};
ghost use Rattle.pl_prints.specs.Footprints.{IsPlaced};
ghost use Rattle.pl_parts.specs.Parts.{IsPrintData, filled_places};
ghost use Rattle.pl_fff.specs.Held.{planes_in, inner_in, surfaces_in, export_data};

use crate::parts::{ExportPlace, Foot};
use pl_layers::Heights;
use pl_options::Config;
use pl_prints::ObjectLayers;
use pl_slots::FffOutput;
use pl_steps::StrokeLists;
use pl_stl::Mesh;
use pl_units::Shared;

/// To slice an object.
#[derive(Drop)]
pub struct SliceJob {
    pub(crate) mesh: Shared<Mesh>,
    pub(crate) quarter: u8,
    pub(crate) heights: Heights,
    ghost turned: { quarter < 4 },
    ghost high: { AreHeights heights },
}

/// To find so many perimeters of each layer of an object.
#[derive(Drop)]
pub struct PerimetersJob {
    pub(crate) slices: Shared<FffOutput>,
    pub(crate) count: u8,
    ghost few: { length (planes_in slices) ≤ 100000 },
}

/// To find the cells of each layer of an object that are solid, sparse and on top.
#[derive(Drop)]
pub struct PrepareJob {
    pub(crate) slices: Shared<FffOutput>,
    pub(crate) perimeters: Shared<FffOutput>,
    pub(crate) top: u8,
    pub(crate) bottom: u8,
    ghost boxes: { HaveEqualBoxes (planes_in slices) (inner_in perimeters) },
    ghost lengths: { length (planes_in slices) ≡ length (inner_in perimeters) },
    ghost few: { length (inner_in perimeters) ≤ 100000 },
}

/// To fill the layers of an object, as dense as the percentage says.
#[derive(Drop)]
pub struct InfillJob {
    pub(crate) surfaces: Shared<FffOutput>,
    pub(crate) density: u8,
    ghost few: { length (surfaces_in surfaces) ≤ 100000 },
    ghost percentage: { density ≤ 100 },
}

/// To iron the layers of an object, where that is asked for.
#[derive(Drop)]
pub struct IroningJob {
    pub(crate) surfaces: Shared<FffOutput>,
    pub(crate) on: bool,
    ghost few: { length (surfaces_in surfaces) ≤ 100000 },
}

/// To support an object, where that is asked for.
#[derive(Drop)]
pub struct SupportJob {
    pub(crate) slices: Shared<FffOutput>,
    pub(crate) on: bool,
    pub(crate) plate_only: bool,
    ghost boxes: { AllPairs (λ p q. p.bounds ≡ q.bounds) (planes_in slices) },
    ghost few: { length (planes_in slices) ≤ 100000 },
}

/// To find the heights of a print and the tools of each.
#[derive(Drop)]
pub struct TowerJob {
    pub(crate) objects: Vec<ObjectLayers>,
    pub(crate) blocks: StrokeLists,
    ghost few: { length objects.items ≤ 16 },
}

/// To find the loops of a skirt round what stands on the bed, so many cells away.
#[derive(Drop)]
pub struct SkirtJob {
    pub(crate) feet: Vec<Foot>,
    pub(crate) distance: u32,
    pub(crate) count: u8,
    ghost placed: { All (λ f. All (IsPlaced f) f.instances) feet.items },
    ghost near: { distance ≤ 250 },
    ghost few: { count ≤ 32 },
}

/// To find the loops of a brim round what stands on the bed, so many cells wide.
#[derive(Drop)]
pub struct BrimJob {
    pub(crate) feet: Vec<Foot>,
    pub(crate) width: u8,
    ghost placed: { All (λ f. All (IsPlaced f) f.instances) feet.items },
    ghost narrow: { width ≤ 100 },
}

/// To write the G-code of a print.
#[derive(Drop)]
pub struct ExportJob {
    pub(crate) config: Config,
    pub(crate) tower: Shared<FffOutput>,
    pub(crate) skirt: Shared<FffOutput>,
    pub(crate) brim: Shared<FffOutput>,
    pub(crate) objects: Vec<Option<ExportPlace>>,
    pub(crate) places: Vec<u8>,
    ghost print: { IsPrintData (export_data config tower skirt brim objects.items) },
    ghost filled: { places.items ≡ filled_places (export_data config tower skirt brim objects.items) },
    ghost few: { length (export_data config tower skirt brim objects.items).heights ≤ 1600000 },
}

/// The work that makes a slot's result, with all that it needs. The mesh of an object stands in the job that slices it alone.
#[derive(Drop)]
pub enum FffJob {
    /// Of an object: its slices.
    Slice(SliceJob),
    /// Of an object: its perimeters.
    Perimeters(PerimetersJob),
    /// Of an object: its surfaces.
    Prepare(PrepareJob),
    /// Of an object: its infill.
    Infill(InfillJob),
    /// Of an object: its ironing.
    Ironing(IroningJob),
    /// Of an object: its support.
    Support(SupportJob),
    /// Of the print: its heights and tools, and the wipe tower.
    Tower(TowerJob),
    /// Of the print: its skirt.
    Skirt(SkirtJob),
    /// Of the print: its brim.
    Brim(BrimJob),
    /// Of the print: its G-code.
    Export(ExportJob),
}
