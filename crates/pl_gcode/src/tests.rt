ghost use Rattle.std.specs.Prelude.{◌≡◌, ◌≤◌, ◌<◌, ◌∷◌, [], length, pos, Some};

use crate::{Parts, extrusion, put_head, put_height, put_tail};
use pl_grid::{Corner, Loop, Stroke};
use pl_options::{Config, Key, Value};
use pl_units::{Nm, NoMemory, Text};
use std::alloc::Global;
use std::test::Fail;

#[test]
fn tracks_have_their_filament(rt: HostRuntime) {
    let table = [
        (800_000, 200_000, 100, 2660),
        (800_000, 200_000, 15, 399),
        (800_000, 200_000, 0, 0),
        (800_000, 10_000, 100, 133),
        (9_007_199_254_740_992, 1_000_000, 200, 299_580_638_161_712),
    ];
    for (len, height, percent, amount) in &table {
        let wanted = *amount;
        if 0 <= *len
            && *len <= 9_007_199_254_740_992
            && 1 <= *height
            && *height <= 1_000_000
            && *percent <= 200
        {
            let made = extrusion(Nm(*len), Nm(*height), Nm(1_750_000), *percent);
            assert_eq!(rt; made, wanted, "{len} by {height} at {percent}");
        }
    }
}

static HEIGHTS: [Nm; 2] = [Nm(200_000), Nm(400_000)];

static NO_STROKES: [Stroke; 0] = [];

static AT_ORIGIN: [Corner; 1] = [Corner { x: 0, y: 0 }];

// A print of two heights, at which all is alike but the infill. The tool of a place has the place's number.
#[derive(Drop)]
struct Sample {
    config: Config,
    tools: &'static [u8],
    block: &'static [Stroke],
    skirt: Vec<Loop>,
    brim: Vec<Loop>,
    places: &'static [u8],
    instances: &'static [Corner],
    loops: Vec<Loop>,
    even: &'static [Stroke],
    odd: &'static [Stroke],
    ironing: &'static [Stroke],
    support: &'static [Stroke],
    ghost some_tools: { 1 ≤ length tools.now },
    ghost few_tools: { length tools.now ≤ 4 },
}

impl Parts for Sample {
    ghost use Rattle.std.specs.Prelude.{◌∷◌, [], pos, Some, slice_index, if◌then◌else◌, ◌==◌};
    ghost use Rattle.pl_gcode.specs.SettingsOf.{settings_of};

    ghost print = { λ s. record {
      settings = settings_of s.config;
      heights = record { 0 = pos 200000 } ∷ record { 0 = pos 400000 } ∷ [];
      tools = λ _. s.tools.now;
      block = λ _ _. s.block.now;
      skirt = s.skirt.items;
      brim = s.brim.items;
      places = s.places.now;
      tool = λ place. place;
      instances = λ _. s.instances.now;
      layers = λ _. 2;
      layer_at = λ _ i. Some i;
      layer_height = λ _ _. record { 0 = pos 200000 };
      loops = λ _ _. s.loops.items;
      infill = λ _ k. if k == 0 then s.even.now else s.odd.now;
      ironing = λ _ _. s.ironing.now;
      support = λ _ _. s.support.now;
    } };

    fn config(&self) -> &Config {
        &self.config
    }

    fn heights(&self) -> &[Nm] {
        &HEIGHTS
    }

    fn tools(&self, _: u32) -> &[u8] {
        self.tools
    }

    fn block(&self, _: u32, _: u8) -> &[Stroke] {
        self.block
    }

    fn skirt(&self) -> &[Loop] {
        &self.skirt
    }

    fn brim(&self) -> &[Loop] {
        &self.brim
    }

    fn places(&self) -> &[u8] {
        self.places
    }

    fn tool(&self, place: u8) -> u8 {
        place
    }

    fn instances(&self, _: u8) -> &[Corner] {
        self.instances
    }

    fn layer_at(&self, _: u8, i: u32) -> Option<u32> {
        Some(i)
    }

    fn layer_height(&self, _: u8, _: u32) -> Nm {
        Nm(200_000)
    }

    fn loops(&self, _: u8, _: u32) -> &[Loop] {
        &self.loops
    }

    fn infill(&self, _: u8, k: u32) -> &[Stroke] {
        if k == 0 { self.even } else { self.odd }
    }

    fn ironing(&self, _: u8, _: u32) -> &[Stroke] {
        self.ironing
    }

    fn support(&self, _: u8, _: u32) -> &[Stroke] {
        self.support
    }
}

static BOX_TEXT: &[u8] =
    b"; headless plater\nG21\nG90\nM83\nM140 S60\nM104 S215\nM190 S60\nM109 S215\n;Z 0.200\nG1 Z0.200 F7800\n;OBJECT 0 0\nG1 X0.000 Y0.200 F7800\nG1 F4800\nG1 X0.800 Y0.200 E0.02660\nG1 X0.800 Y0.600 F7800\nG1 F4800\nG1 X0.000 Y0.600 E0.02660\n;Z 0.400\nG1 Z0.400 F7800\nM140 S60\nM104 S210\n;OBJECT 0 0\nG1 X0.200 Y0.000 F7800\nG1 F4800\nG1 X0.200 Y0.800 E0.02660\nG1 X0.600 Y0.800 F7800\nG1 F4800\nG1 X0.600 Y0.000 E0.02660\nM104 S0\nM140 S0\n";

static BUSY_TEXT: &[u8] =
    b"; headless plater\nG21\nG90\nM83\nM140 S60\nM104 S215\nM190 S60\nM109 S215\nG28\n;Z 0.200\nG1 Z0.200 F7800\nG1 X-0.400 Y-0.400 F7800\nG1 F2700\nG1 X1.200 Y-0.400 E0.05321\nG1 X1.200 Y0.800 E0.03991\nG1 X-0.400 Y0.800 E0.05321\nG1 X-0.400 Y-0.400 E0.03991\nG1 X0.000 Y0.000 F7800\nG1 F2700\nG1 X0.800 Y0.000 E0.02660\nG1 X0.800 Y0.400 E0.01330\nG1 X0.000 Y0.400 E0.02660\nG1 X0.000 Y0.000 E0.01330\n;OBJECT 0 0\nG1 X0.200 Y0.000 F7800\nG1 F4800\nG1 X0.200 Y0.400 E0.00199\nG1 X0.800 Y0.200 F7800\nG1 F4800\nG1 X1.200 Y0.200 E0.01330\n;OBJECT 0 1\nG1 X2.200 Y4.000 F7800\nG1 F4800\nG1 X2.200 Y4.400 E0.00199\nG1 X2.800 Y4.200 F7800\nG1 F4800\nG1 X3.200 Y4.200 E0.01330\nT1\nG1 X4.000 Y0.200 F7800\nG1 F4800\nG1 X4.800 Y0.200 E0.02660\n;OBJECT 1 0\nG1 X0.200 Y0.000 F7800\nG1 F4800\nG1 X0.200 Y0.400 E0.00199\nG1 X0.800 Y0.200 F7800\nG1 F4800\nG1 X1.200 Y0.200 E0.01330\n;OBJECT 1 1\nG1 X2.200 Y4.000 F7800\nG1 F4800\nG1 X2.200 Y4.400 E0.00199\nG1 X2.800 Y4.200 F7800\nG1 F4800\nG1 X3.200 Y4.200 E0.01330\n;Z 0.400\nG1 Z0.400 F7800\nM140 S60\nM104 S210\nT0\nG1 X4.000 Y0.200 F7800\nG1 F4800\nG1 X4.800 Y0.200 E0.02660\n;OBJECT 0 0\nG1 X0.200 Y0.000 F7800\nG1 F4800\nG1 X0.200 Y0.400 E0.00199\nG1 X0.800 Y0.200 F7800\nG1 F4800\nG1 X1.200 Y0.200 E0.01330\n;OBJECT 0 1\nG1 X2.200 Y4.000 F7800\nG1 F4800\nG1 X2.200 Y4.400 E0.00199\nG1 X2.800 Y4.200 F7800\nG1 F4800\nG1 X3.200 Y4.200 E0.01330\nT1\nG1 X4.000 Y0.200 F7800\nG1 F4800\nG1 X4.800 Y0.200 E0.02660\n;OBJECT 1 0\nG1 X0.200 Y0.000 F7800\nG1 F4800\nG1 X0.200 Y0.400 E0.00199\nG1 X0.800 Y0.200 F7800\nG1 F4800\nG1 X1.200 Y0.200 E0.01330\n;OBJECT 1 1\nG1 X2.200 Y4.000 F7800\nG1 F4800\nG1 X2.200 Y4.400 E0.00199\nG1 X2.800 Y4.200 F7800\nG1 F4800\nG1 X3.200 Y4.200 E0.01330\nM84\nM104 S0\nM140 S0\n";

// The whole text of a sample.
fn written(alloc: Global, sample: &Sample) -> Result<Text, NoMemory> {
    let mut out = Text::copy_of(alloc, b"")?;
    put_head(&mut out, sample)?;
    put_height(&mut out, sample, 0)?;
    put_height(&mut out, sample, 1)?;
    put_tail(&mut out, sample)?;
    Ok(out)
}

static ROWS: [Stroke; 2] = [
    Stroke {
        x0: 0,
        y0: 1,
        x1: 4,
        y1: 1,
    },
    Stroke {
        x0: 4,
        y0: 3,
        x1: 0,
        y1: 3,
    },
];

static COLUMNS: [Stroke; 2] = [
    Stroke {
        x0: 1,
        y0: 0,
        x1: 1,
        y1: 4,
    },
    Stroke {
        x0: 3,
        y0: 4,
        x1: 3,
        y1: 0,
    },
];

#[test]
fn a_box_of_two_by_two_cells(rt: HostRuntime) -> Result<(), Fail> {
    let alloc = rt.alloc();
    let sample = Sample {
        config: Config::defaults(alloc)?,
        tools: &[0],
        block: &NO_STROKES,
        skirt: Vec::new(alloc),
        brim: Vec::new(alloc),
        places: &[0],
        instances: &AT_ORIGIN,
        loops: Vec::new(alloc),
        even: &ROWS,
        odd: &COLUMNS,
        ironing: &NO_STROKES,
        support: &NO_STROKES,
    };
    let text = written(alloc, &sample)?;
    assert_eq!(rt; text.bytes().len(), 409);
    assert_eq!(rt; text.bytes(), BOX_TEXT);
    Ok(())
}

static BLOCK: [Stroke; 1] = [Stroke {
    x0: 20,
    y0: 1,
    x1: 24,
    y1: 1,
}];

static IRONING: [Stroke; 1] = [Stroke {
    x0: 1,
    y0: 0,
    x1: 1,
    y1: 2,
}];

static SUPPORT: [Stroke; 1] = [Stroke {
    x0: 4,
    y0: 1,
    x1: 6,
    y1: 1,
}];

static INSTANCES: [Corner; 2] = [Corner { x: 0, y: 0 }, Corner { x: 5, y: 10 }];

// The loop round a rectangle of cells.
fn rectangle(alloc: Global, x0: i32, y0: i32, x1: i32, y1: i32) -> Result<Vec<Loop>, NoMemory> {
    let corners = [
        Corner { x: x0, y: y0 },
        Corner { x: x1, y: y0 },
        Corner { x: x1, y: y1 },
        Corner { x: x0, y: y1 },
    ];
    let mut loops = Vec::new(alloc);
    loops.push(Loop::of(Vec::from_slice(alloc, &corners)?))?;
    Ok(loops)
}

// The defaults with a start text that lacks its line end, and an end text that has one.
fn with_own_texts(alloc: Global) -> Result<Config, NoMemory> {
    let mut config = Config::defaults(alloc)?;
    config.put(Key::StartGcode, Value::Words(Text::copy_of(alloc, b"G28")?));
    config.put(Key::EndGcode, Value::Words(Text::copy_of(alloc, b"M84\n")?));
    Ok(config)
}

#[test]
fn two_tools_with_a_tower_and_two_instances(rt: HostRuntime) -> Result<(), Fail> {
    let alloc = rt.alloc();
    let sample = Sample {
        config: with_own_texts(alloc)?,
        tools: &[0, 1],
        block: &BLOCK,
        skirt: rectangle(alloc, -1, -1, 3, 2)?,
        brim: rectangle(alloc, 0, 0, 2, 1)?,
        places: &[0, 1],
        instances: &INSTANCES,
        loops: Vec::new(alloc),
        even: &NO_STROKES,
        odd: &NO_STROKES,
        ironing: &IRONING,
        support: &SUPPORT,
    };
    let text = written(alloc, &sample)?;
    assert_eq!(rt; text.bytes(), BUSY_TEXT);
    Ok(())
}
