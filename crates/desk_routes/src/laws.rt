//! Laws of the definitions alone.

ghost use Rattle.std.specs.Prelude.{◌≡◌, ◌↔◌, ℕ, List, Some, Ok, Err, Contains, map};
ghost use Rattle.std.specs.Cmp.Lexicographic.{slice_cmp};
ghost use Rattle.std.specs.List.Sorted.{IsStrictlySortedBy};
ghost use Rattle.std.specs.Ordering.{nat_cmp};
ghost use Rattle.desk_routes.specs.declared.method.Method.{Method as AnyMethod};
ghost use Rattle.desk_routes.specs.declared.resource.PathPattern.{PathPattern as AnyPattern};
ghost use Rattle.desk_routes.specs.declared.resource.Resource.{Resource as AnyResource};
ghost use Rattle.desk_routes.specs.declared.refusal.DeskRefusal.TheVariants.{NoRoute, Method};
ghost use Rattle.desk_routes.specs.declared.route.Route.{Route as AnyRoute};
ghost use Rattle.desk_routes.specs.PathReading.{resource_named};
ghost use Rattle.desk_routes.specs.Resources.{SpellsResource, pattern_of};
ghost use Rattle.desk_routes.specs.Table.{AsksFor, IsOtherMethod, method_text, methods_of, row, route_at, route_of};
ghost use Rattle.desk_routes.specs.Targets.{Splits, path_part, query_part};

/// A path is read as a resource exactly where it is the spelling of that resource.
pub fn spelled_resources()
    ensures { (path : List ℕ) (resource : AnyResource)
        → (resource_named path ≡ Some resource) ↔ SpellsResource path resource }
{}

/// A path is the spelling of one resource at most.
pub fn one_resource()
    ensures { (path : List ℕ) (one other : AnyResource)
        → SpellsResource path one → SpellsResource path other → one ≡ other }
{}

/// A method and a resource give a route exactly where they are the route's row of the table.
pub fn rows_of_routes()
    ensures { (method : AnyMethod) (resource : AnyResource) (route : AnyRoute)
        → (route_at method resource ≡ Some route)
        ↔ (((row route).0 ≡ method) × ((row route).1 ≡ resource)) }
{}

/// A resource takes exactly the methods that its pattern lists.
pub fn allowed_methods()
    ensures { (method : AnyMethod) (resource : AnyResource)
        → Contains (methods_of (pattern_of resource)) method
        ↔ ((route : AnyRoute) × (route_at method resource ≡ Some route)) }
{}

/// A pattern lists its methods by their words in the order of bytes, each once.
pub fn methods_in_order()
    ensures { (pattern : AnyPattern)
        → IsStrictlySortedBy (slice_cmp nat_cmp) (map method_text (methods_of pattern)) }
{}

/// A method on a path asks for a route exactly where the route's row has that method and the path
/// is the spelling of its resource. It is refused with `NoRoute` exactly where the path is the
/// spelling of no resource. It is refused with `Method` exactly where the path is the spelling of a
/// resource that does not take the method.
pub fn asked_routes()
    ensures asked { (method path : List ℕ) (route : AnyRoute)
        → (route_of method path ≡ Ok route) ↔ AsksFor method path route }
    ensures nothing { (method path : List ℕ)
        → (route_of method path ≡ Err NoRoute)
        ↔ ((resource : AnyResource) → ¬ (SpellsResource path resource)) }
    ensures refused { (method path : List ℕ) (pattern : AnyPattern)
        → (route_of method path ≡ Err (Method pattern)) ↔ IsOtherMethod method path pattern }
{}

/// A target has one path and one query.
pub fn one_split()
    ensures { (target path query : List ℕ)
        → ((path_part target ≡ path) × (query_part target ≡ query))
        ↔ Splits target path query }
{}
