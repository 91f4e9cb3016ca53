//! The words of refusals.
use crate::EditRefusal;
use pl_options::IniFault;
use pl_stl::StlFault;
use std::test::Fail;

#[test]
fn refusals_are_told_by_their_names(rt: HostRuntime) -> Result<(), Fail> {
    let rows = [
        (EditRefusal::LastInstance, "LastInstance"),
        (EditRefusal::BadStl(6, StlFault::Cut), "BadStl 6 Cut"),
        (
            EditRefusal::BadIni(1, IniFault::NoEquals),
            "BadIni 1 NoEquals",
        ),
    ];
    for (refusal, words) in &rows {
        let told = format!(in rt.alloc(); "{refusal}")?;
        assert!(rt; told.as_str() == *words, "{words}");
    }
    Ok(())
}
