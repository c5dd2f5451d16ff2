//! The two parts of a target.

ghost use Rattle.std.specs.Prelude.{◌≡◌};
ghost use Rattle.desk_routes.specs.Targets.{path_part, query_part};

/// The path and the query of a target: what comes before its first `?`, and what follows it. A
/// target without a `?` has the empty query.
pub fn split_target(target: &str) -> (&str, &str)
    ensures path { result.0.now ≡ path_part target.now }
    ensures query { result.1.now ≡ query_part target.now }
{
    match target.split_once('?') {
        Some((path, query)) => (path, query),
        None => (target, ""),
    }
}
