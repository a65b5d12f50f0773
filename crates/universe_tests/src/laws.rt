use laws_universe::{
    candidates_are_versions, dependencies_stand_in_order, installed_are_versions,
    tokens_name_choices, versions_stand_apart,
};
use std::test::Fail;

#[test]
fn laws_are_called(rt: HostRuntime) -> Result<(), Fail> {
    candidates_are_versions();
    installed_are_versions();
    versions_stand_apart();
    dependencies_stand_in_order();
    tokens_name_choices();
    assert!(rt; true);
    Ok(())
}
