use super::only::Only;
use super::values::{check_spelling, same};
use kinds::find::find_name;
use kinds::kind::Kind;
use kinds::operators::FIELD;
use kinds::pair::Pair;
use kinds::sources::Sources;

#[test]
fn only_has_one_value_and_no_name(rt: HostRuntime) {
    assert_eq!(rt; Only::names(), 0);
    assert_eq!(rt; Only::height(), 0);
    assert_eq!(rt; Only::bottom().rank(), 0);
    assert_eq!(rt; find_name::<Only>(b"checked"), None);
    assert_eq!(rt; find_name::<Only>(b""), None);
    check_spelling::<Only>(&rt, 0, b"");
    assert!(rt; same(Only::value(0), Only::bottom()));
    let result = Only::operate(FIELD, Only::bottom(), Only::bottom());
    assert!(rt; same(result, Only::bottom()));
}

#[test]
fn beside_only_the_sources_keep_their_names(rt: HostRuntime) {
    assert_eq!(rt; find_name::<Pair<Only, Sources>>(b"form"), Some(0));
    assert_eq!(rt; find_name::<Pair<Only, Sources>>(b"loop"), Some(1));
    assert_eq!(rt; find_name::<Pair<Only, Sources>>(b"clock"), Some(2));
    assert_eq!(rt; Pair::<Only, Sources>::names(), 3);
    assert_eq!(rt; Pair::<Only, Sources>::height(), 3);
    let bottom = Pair::<Only, Sources>::bottom();
    let field = Pair::<Only, Sources>::operate(FIELD, bottom, bottom);
    assert!(rt; same(field, Pair::<Only, Sources>::value(0)));
}
