//! What is written: the parts of a print.
ghost use Rattle.std.specs.Prelude.{◌≡◌, ◌<◌, length, Contains};
ghost use Rattle.pl_gcode.specs.Gcode.{changes_at};
ghost use Rattle.pl_gcode.specs.IsPrint.{IsPrint};
ghost use Rattle.pl_gcode.specs.Print.{Print};
ghost use Rattle.pl_gcode.specs.SettingsOf.{settings_of};

use pl_grid::{Corner, Loop, Stroke};
use pl_options::Config;
use pl_units::Nm;

/// The parts of a print, as its G-code asks for them. Heights are numbered from 0, and so are the changes of tools at a
/// height and the layers of a place. Each value is the parts of a print as `IsPrint` says: a height has one to four tools,
/// heights rise by 1 to 1,000,000 nm, and what a place has at a height is one of its layers.
pub trait Parts {
    /// The print that the parts are of.
    ghost print: { Self → Print };

    /// The options, of which the text speaks of twelve.
    fn config(&self) -> &Config
        ensures settings { settings_of result.now ≡ (print self.now).settings }
        ensures print { IsPrint (print self.now) };

    /// The heights, ascending, in nanometres above the bed.
    fn heights(&self) -> &[Nm]
        ensures { result.now ≡ (print self.now).heights };

    /// The tools of a height, in order.
    fn tools(&self, i: u32) -> &[u8]
        requires { i < length (print self.now).heights }
        ensures { result.now ≡ (print self.now).tools i };

    /// The tower's strokes of a change of tools at a height, in half cells of the bed.
    fn block(&self, i: u32, change: u8) -> &[Stroke]
        requires height { i < length (print self.now).heights }
        requires change { change < changes_at (print self.now) i }
        ensures { result.now ≡ (print self.now).block i change };

    /// The loops of the skirt, in cells of the bed.
    fn skirt(&self) -> &[Loop]
        ensures { result.now ≡ (print self.now).skirt };

    /// The loops of the brim, in cells of the bed.
    fn brim(&self) -> &[Loop]
        ensures { result.now ≡ (print self.now).brim };

    /// The filled places, ascending.
    fn places(&self) -> &[u8]
        ensures { result.now ≡ (print self.now).places };

    /// The tool of a filled place.
    fn tool(&self, place: u8) -> u8
        requires { Contains (print self.now).places place }
        ensures { result ≡ (print self.now).tool place };

    /// The bed cell of each instance of a filled place, in order.
    fn instances(&self, place: u8) -> &[Corner]
        requires { Contains (print self.now).places place }
        ensures { result.now ≡ (print self.now).instances place };

    /// The layer of a filled place at a height: `None` exactly where it has none there.
    fn layer_at(&self, place: u8, i: u32) -> Option<u32>
        requires place { Contains (print self.now).places place }
        requires height { i < length (print self.now).heights }
        ensures { result ≡ (print self.now).layer_at place i };

    /// The height of a layer of a filled place, from 1 to 1,000,000 nm.
    fn layer_height(&self, place: u8, k: u32) -> Nm
        requires place { Contains (print self.now).places place }
        requires layer { k < (print self.now).layers place }
        ensures { result ≡ (print self.now).layer_height place k };

    /// The loops of the perimeters of a layer, in cells of the object.
    fn loops(&self, place: u8, k: u32) -> &[Loop]
        requires place { Contains (print self.now).places place }
        requires layer { k < (print self.now).layers place }
        ensures { result.now ≡ (print self.now).loops place k };

    /// The strokes of the infill of a layer, in half cells of the object.
    fn infill(&self, place: u8, k: u32) -> &[Stroke]
        requires place { Contains (print self.now).places place }
        requires layer { k < (print self.now).layers place }
        ensures { result.now ≡ (print self.now).infill place k };

    /// The strokes of the ironing of a layer, in half cells of the object.
    fn ironing(&self, place: u8, k: u32) -> &[Stroke]
        requires place { Contains (print self.now).places place }
        requires layer { k < (print self.now).layers place }
        ensures { result.now ≡ (print self.now).ironing place k };

    /// The strokes of the support of a layer, in half cells of the object.
    fn support(&self, place: u8, k: u32) -> &[Stroke]
        requires place { Contains (print self.now).places place }
        requires layer { k < (print self.now).layers place }
        ensures { result.now ≡ (print self.now).support place k };
}
