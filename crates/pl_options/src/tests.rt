//! The words of the faults, settings texts, configurations and overrides.
use crate::{Config, IniFault, IniSet, Key, Overrides, Value, all_keys, name_of, read_ini};
use pl_units::Refusal;
use std::test::Fail;

// Whether an option of the settings is a whole number.
fn is_whole(set: &IniSet, key: Key, number: i64) -> bool {
    match set.get(key) {
        Some(value) => value.same(&Value::Whole(number)),
        None => false,
    }
}

#[test]
fn faults_are_told_by_their_names(rt: HostRuntime) -> Result<(), Fail> {
    let rows = [
        (IniFault::NoEquals, "NoEquals"),
        (IniFault::BadValue, "BadValue"),
        (IniFault::OutOfRange, "OutOfRange"),
    ];
    for (fault, word) in &rows {
        let told = format!(in rt.alloc(); "{fault}")?;
        assert!(rt; told.as_str() == *word, "{word}");
    }
    Ok(())
}

#[test]
fn the_last_value_of_a_key_stands(rt: HostRuntime) -> Result<(), Fail> {
    let text = b"# c\nperimeters = 3\ncolour = red\nperimeters = 4";
    let set = read_ini(rt.alloc(), text).ok().ok_or("refused")?;
    assert_eq!(rt; set.taken(), 2);
    assert_eq!(rt; set.passed(), 1);
    assert!(rt; is_whole(&set, Key::Perimeters, 4));
    assert!(rt; set.get(Key::Skirts).is_none());
    Ok(())
}

#[test]
fn lines_are_counted_by_their_keys(rt: HostRuntime) -> Result<(), Fail> {
    let rows: [(&[u8], u32, u32); 7] = [
        (b"", 0, 0),
        (b"\n \t\n", 0, 0),
        (b"; a = b\n [c = d\n\r# = e\n", 0, 0),
        (b"=3\n = \n", 0, 2),
        (b"Perimeters = 3\nperimeters_ = 3\n", 0, 2),
        (b" perimeters\t=\x0b 3 \r\nnotes=\nnotes = a = b\n", 3, 0),
        (b"start_gcode = ; c\nx = # d", 1, 1),
    ];
    for (text, taken, passed) in rows {
        assert!(rt; text.len() <= 100);
        let set = read_ini(rt.alloc(), text).ok().ok_or("refused")?;
        assert!(rt; set.taken() == taken && set.passed() == passed, "{text:?}");
    }
    Ok(())
}

#[test]
fn a_text_is_refused_at_its_first_breach(rt: HostRuntime) -> Result<(), Fail> {
    let rows: [(&[u8], u32, IniFault); 6] = [
        (b"perimeters 3", 1, IniFault::NoEquals),
        (b"\n# c\n\nskirts\nperimeters = 99", 4, IniFault::NoEquals),
        (
            b"perimeters = 3\nironing = 2\nskirts",
            2,
            IniFault::BadValue,
        ),
        (b"perimeters = 3 = 4\n", 1, IniFault::BadValue),
        (b"[a]\r\nfill_density = 101%\r\n", 2, IniFault::OutOfRange),
        (b"layer_height =\n", 1, IniFault::BadValue),
    ];
    for (text, line, fault) in rows {
        assert!(rt; text.len() <= 100);
        let refusal = read_ini(rt.alloc(), text).err().ok_or("taken")?;
        assert!(rt; refusal == Refusal::Fault { line, fault }, "{text:?}");
    }
    Ok(())
}

#[test]
fn an_exported_configuration_is_read(rt: HostRuntime) -> Result<(), Fail> {
    let mut text = Vec::from_slice(rt.alloc(), b"# generated\n")?;
    for _ in 0..221 {
        text.extend_from_slice(b"gap_fill_speed = 20\n")?;
    }
    for key in all_keys() {
        if *key != Key::Extruder {
            text.extend_from_slice(name_of(*key))?;
            text.extend_from_slice(b" = 1\n")?;
        }
    }
    assert!(rt; text.len() <= 100_000);
    let set = read_ini(rt.alloc(), &text).ok().ok_or("refused")?;
    assert_eq!(rt; set.taken(), 29);
    assert_eq!(rt; set.passed(), 221);
    assert!(rt; is_whole(&set, Key::ExtrusionMultiplier, 100));
    assert!(rt; set.get(Key::Extruder).is_none());
    Ok(())
}

#[test]
fn a_configuration_takes_values(rt: HostRuntime) -> Result<(), Fail> {
    let mut config = Config::defaults(rt.alloc()).map_err(|_| "memory")?;
    let defaults = config.copied().map_err(|_| "memory")?;
    assert!(rt; config.get(Key::Skirts).same(&Value::Whole(1)));
    config.put(Key::Skirts, Value::Whole(3));
    assert!(rt; config.get(Key::Skirts).same(&Value::Whole(3)));
    assert!(rt; !config.same(&defaults));
    let set = read_ini(rt.alloc(), b"skirts = 1\nperimeters = 5")
        .ok()
        .ok_or("refused")?;
    config.put_all(set);
    assert!(rt; config.get(Key::Perimeters).same(&Value::Whole(5)));
    config.put(Key::Perimeters, Value::Whole(2));
    assert!(rt; config.same(&defaults));
    Ok(())
}

#[test]
fn overrides_have_no_order(rt: HostRuntime) -> Result<(), Fail> {
    let mut one = Overrides::new(rt.alloc());
    let mut other = Overrides::new(rt.alloc());
    one.put(Key::Perimeters, Value::Whole(3))
        .map_err(|_| "memory")?;
    one.put(Key::Ironing, Value::Flag(true))
        .map_err(|_| "memory")?;
    other
        .put(Key::Ironing, Value::Flag(true))
        .map_err(|_| "memory")?;
    assert!(rt; !one.same(&other));
    other
        .put(Key::Perimeters, Value::Whole(3))
        .map_err(|_| "memory")?;
    assert!(rt; one.same(&other));
    let copy = one.copied().map_err(|_| "memory")?;
    one.remove(Key::Perimeters);
    assert!(rt; one.get(Key::Perimeters).is_none() && one.get(Key::Ironing).is_some());
    assert!(rt; copy.same(&other) && !copy.same(&one));
    Ok(())
}
