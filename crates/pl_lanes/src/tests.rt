use crate::{dilate_row, erode_row, minus_row, toggle_below, turned_square};
use std::test::Fail;

#[test]
fn bits_below_a_place_are_flipped_over_a_word_end(rt: HostRuntime) -> Result<(), Fail> {
    let mut row = [0u64, 0];
    toggle_below(&mut row, 65);
    assert!(rt; row[0] == u64::MAX && row[1] == 1, "65 bits");
    toggle_below(&mut row, 1000);
    assert!(rt; row[0] == 0 && row[1] == u64::MAX - 1, "all bits");
    Ok(())
}

#[test]
fn neighbours_are_seen_over_a_word_end(rt: HostRuntime) -> Result<(), Fail> {
    let none = [0u64, 0];
    let all = [u64::MAX, u64::MAX];
    let mut out = [0u64, 0];
    erode_row(&all, &all, &all, &mut out);
    assert!(rt; out[0] == u64::MAX - 1 && out[1] == u64::MAX >> 1, "eroded");
    dilate_row(&none, &[0, 1], &none, &mut out);
    assert!(rt; out[0] == 1 << 63 && out[1] == 3, "dilated");
    minus_row(&all, &[1, 0], &mut out);
    assert!(rt; out[0] == u64::MAX - 1 && out[1] == u64::MAX, "minus");
    Ok(())
}

#[test]
fn a_square_turns_over_its_diagonal(rt: HostRuntime) -> Result<(), Fail> {
    let mut square = [0u64; 64];
    square[0] = 1 << 63;
    square[5] = (1 << 7) | (1 << 40);
    let turned = turned_square(&square);
    assert!(rt;
        turned[63] == 1 && turned[7] == 1 << 5 && turned[40] == 1 << 5,
        "turned"
    );
    assert!(rt; turned[0] == 0 && turned[5] == 0, "nothing else");
    Ok(())
}
