//! The calls of `desk_routes`, on their happy paths. Each path and each method that is refused is in
//! the stored replay.

use desk_routes::{DeskRefusal, Method, PathPattern, Resource, Route, Routes, split_target};
use std::test::*;

#[test]
fn finds_a_resource(rt: HostRuntime) -> Result<(), Fail> {
    let routes = Routes::new(rt.alloc())?;
    let resource = routes
        .find("/deposits/12/files//a%20b")
        .ok_or("no resource")?;
    assert!(rt; matches!(resource.pattern(), PathPattern::File));
    let Resource::File { deposit, path } = resource else {
        return Err(Fail::new("no file"));
    };
    assert!(rt; deposit == 12 && path.as_str() == "/a%20b");
    assert!(rt; routes.find("/deposits/012/files/a").is_none());
    Ok(())
}

#[test]
fn finds_a_route(rt: HostRuntime) -> Result<(), Fail> {
    let routes = Routes::new(rt.alloc())?;
    let found = routes.route("DELETE", "/holds/9999999");
    assert!(rt; matches!(found, Ok(Route::Release(9_999_999))));
    let found = routes.route("PUT", "/holds/3");
    assert!(rt; matches!(found, Err(DeskRefusal::Method(PathPattern::Hold))));
    Ok(())
}

#[test]
fn lists_methods(rt: HostRuntime) {
    let methods = PathPattern::Deposits.methods();
    assert!(rt; matches!(methods, [Method::Get, Method::Post]));
    assert!(rt; Method::Delete.as_str() == "DELETE");
}

#[test]
fn splits_a_target(rt: HostRuntime) {
    let (path, query) = split_target("/due?a=b?c");
    assert!(rt; path == "/due");
    assert!(rt; query == "a=b?c");
}
