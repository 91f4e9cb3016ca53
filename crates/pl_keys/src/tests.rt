//! The table, and values that texts write.
use crate::{
    Key, Value, ValueFault, ValueStop, all_keys, default_value, direct_steps, is_object_key,
    key_of, name_of, read_value, trim,
};
use pl_units::{Nm, Text};
use std::test::Fail;

#[test]
fn whole_numbers_are_read(rt: HostRuntime) -> Result<(), Fail> {
    let rows: [(Key, &[u8], i64); 9] = [
        (Key::FillDensity, b"20%", 20),
        (Key::FillDensity, b"20", 20),
        (Key::FillDensity, b"20% , 5", 20),
        (Key::ExtrusionMultiplier, b"0.95", 95),
        (Key::Temperature, b"215,220", 215),
        (Key::Perimeters, b"0.4999995", 1),
        (Key::Perimeters, b"\t 32 \r", 32),
        (Key::Skirts, b"-0.4", 0),
        (Key::TravelSpeed, b"1e3", 1000),
    ];
    for (key, text, number) in rows {
        let value = read_value(rt.alloc(), key, text)?;
        assert!(rt; value.same(&Value::Whole(number)), "{key:?} {text:?}");
    }
    Ok(())
}

#[test]
fn lengths_and_flags_are_read(rt: HostRuntime) -> Result<(), Fail> {
    let rows: [(Key, &[u8], Value); 5] = [
        (Key::LayerHeight, b" 0.2", Value::Length(Nm(200_000))),
        (Key::WipeTowerX, b"1000", Value::Length(Nm(1_000_000_000))),
        (Key::BrimWidth, b"3, 4", Value::Length(Nm(3_000_000))),
        (Key::Ironing, b"1 ", Value::Flag(true)),
        (Key::WipeTower, b"0", Value::Flag(false)),
    ];
    for (key, text, wanted) in &rows {
        let value = read_value(rt.alloc(), *key, text)?;
        assert!(rt; value.same(wanted), "{key:?} {text:?}");
    }
    Ok(())
}

#[test]
fn other_texts_are_refused(rt: HostRuntime) -> Result<(), Fail> {
    let rows: [(Key, &[u8], ValueStop); 15] = [
        (Key::FillDensity, b"x", ValueStop::BadValue),
        (Key::FillDensity, b"20 %", ValueStop::BadValue),
        (Key::FillDensity, b"%", ValueStop::BadValue),
        (Key::FillDensity, b"20%%", ValueStop::BadValue),
        (Key::FillDensity, b",5", ValueStop::BadValue),
        (Key::Perimeters, b"2%", ValueStop::BadValue),
        (Key::Ironing, b"1,0", ValueStop::BadValue),
        (Key::Ironing, b"2", ValueStop::BadValue),
        (Key::Ironing, b"", ValueStop::BadValue),
        (Key::FillDensity, b"101%", ValueStop::OutOfRange),
        (Key::Perimeters, b"33", ValueStop::OutOfRange),
        (Key::Perimeters, b"-1", ValueStop::OutOfRange),
        (Key::LayerHeight, b"0.019", ValueStop::OutOfRange),
        (Key::WipeTowerX, b"1000.1", ValueStop::OutOfRange),
        (Key::ExtrusionMultiplier, b"2.005", ValueStop::OutOfRange),
    ];
    for (key, text, wanted) in rows {
        let stop = read_value(rt.alloc(), key, text).err().ok_or("taken")?;
        assert!(rt; stop == wanted, "{key:?} {text:?}");
    }
    Ok(())
}

#[test]
fn escapes_are_read(rt: HostRuntime) -> Result<(), Fail> {
    let rows: [(&[u8], &[u8]); 6] = [
        (b" G1 X1 ; a, b ", b"G1 X1 ; a, b"),
        (b"a\\nb", b"a\nb"),
        (b"a\\r\\nb", b"a\nb"),
        (b"\\\\n", b"\\n"),
        (b"\\t\\", b"\\t\\"),
        (b"\\r", b""),
    ];
    for (text, wanted) in rows {
        let value = read_value(rt.alloc(), Key::StartGcode, text)?;
        let wanted = Value::Words(Text::copy_of(rt.alloc(), wanted).map_err(|_| "memory")?);
        assert!(rt; value.same(&wanted), "{text:?}");
    }
    Ok(())
}

#[test]
fn long_words_are_refused(rt: HostRuntime) -> Result<(), Fail> {
    let long = vec![in rt.alloc(); b'x'; 65_537]?;
    let most = vec![in rt.alloc(); b'x'; 65_536]?;
    let value = read_value(rt.alloc(), Key::Notes, &most)?;
    assert!(rt; matches!(&value, Value::Words(words) if words.bytes().len() == 65_536));
    let stop = read_value(rt.alloc(), Key::Notes, &long).err();
    assert_eq!(rt; stop, Some(ValueStop::OutOfRange));
    Ok(())
}

#[test]
fn options_have_names(rt: HostRuntime) -> Result<(), Fail> {
    for key in all_keys() {
        assert_eq!(rt; key_of(name_of(*key)), Some(*key));
    }
    assert_eq!(rt; key_of(b"colour"), None);
    assert_eq!(rt; key_of(trim(b" brim_width\n")), Some(Key::BrimWidth));
    assert!(rt; is_object_key(Key::Extruder) && !is_object_key(Key::Skirts));
    Ok(())
}

#[test]
fn options_touch_steps(rt: HostRuntime) {
    let steps = direct_steps(Key::BrimWidth);
    assert!(rt; steps.has(7) && steps.has(8) && !steps.has(9) && !steps.has(10));
    assert!(rt; direct_steps(Key::Ironing).has(4) && !direct_steps(Key::Notes).has(9));
}

#[test]
fn defaults_are_copied(rt: HostRuntime) -> Result<(), Fail> {
    for key in all_keys() {
        let value = default_value(rt.alloc(), *key).map_err(|_| "memory")?;
        let copy = value.copied(rt.alloc()).map_err(|_| "memory")?;
        assert!(rt; value.same(&copy), "{key:?}");
    }
    let height = default_value(rt.alloc(), Key::LayerHeight).map_err(|_| "memory")?;
    assert!(rt; height.same(&Value::Length(Nm(200_000))));
    assert!(rt; !height.same(&Value::Whole(200_000)));
    Ok(())
}

#[test]
fn faults_are_told_by_their_names(rt: HostRuntime) -> Result<(), Fail> {
    let bad = format!(in rt.alloc(); "{} {}", ValueFault::BadValue, ValueStop::BadValue)?;
    let out = format!(in rt.alloc(); "{} {}", ValueFault::OutOfRange, ValueStop::OutOfRange)?;
    let memory = format!(in rt.alloc(); "{}", ValueStop::NoMemory)?;
    assert_eq!(rt; bad.as_str(), "BadValue BadValue");
    assert_eq!(rt; out.as_str(), "OutOfRange OutOfRange");
    assert_eq!(rt; memory.as_str(), "NoMemory");
    Ok(())
}
