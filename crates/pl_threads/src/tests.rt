ghost use Rattle.std.specs.Prelude.{◌≡◌, ◌*◌};

use crate::{Work, work_all};
use std::sync::Wait;
use std::test::Fail;
use std::thread::Threads;

impl Work for u32 {
    type Done = u64;

    ghost may = { λ n. Unit {0} };

    ghost done = { λ n d. d ≡ 3 * n };

    fn work<R: Threads + Wait + Sync>(self, _rt: &R) -> u64 {
        3 * u64::from(self)
    }
}

#[test]
fn five_numbers_are_worked_on_in_threads_and_come_back_in_order(
    rt: HostRuntime,
) -> Result<(), Fail> {
    let numbers = vec![in rt.alloc(); 7_u32, 0, 4_294_967_295, 7, 12]?;
    let tripled = work_all(&rt, rt.alloc(), numbers)?;
    let wanted: [u64; 5] = [21, 0, 12_884_901_885, 21, 36];
    assert_eq!(rt; tripled.len(), 5);
    for (found, want) in tripled.iter().zip(wanted) {
        assert!(rt; *found == want);
    }
    Ok(())
}

#[test]
fn an_empty_list_gives_an_empty_list(rt: HostRuntime) -> Result<(), Fail> {
    let none: Vec<u32> = Vec::new(rt.alloc());
    let tripled = work_all(&rt, rt.alloc(), none)?;
    assert!(rt; tripled.is_empty());
    Ok(())
}
