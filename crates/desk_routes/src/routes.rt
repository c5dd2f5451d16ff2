//! The table of the routes.

ghost use Rattle.std.specs.Prelude.{◌≡◌, [], IfOk, OnOk};
ghost use Rattle.desk_routes.specs.PathReading.{resource_named};
ghost use Rattle.desk_routes.specs.Rows.{definition_rows, rows_with_deposits, rows_with_parts_of_deposit, the_rows};
ghost use Rattle.desk_routes.specs.Table.{route_of};

use crate::method::Method;
use crate::refusal::DeskRefusal;
use crate::resource::{PathPattern, Resource, resource_by_params};
use crate::route::{Route, route_at};
use matchit::{InsertError, Router};
use std::alloc::{AllocError, Global};
use std::marker::Model;

/// Adds the paths of what is defined: of a class, and of a collection.
fn insert_definitions(router: &mut Router<PathPattern>) -> Result<(), InsertError>
    requires { router.now ≡ [] }
    ensures { OnOk result (router.new ≡ definition_rows) }
{
    router.insert("/classes/{name}", PathPattern::Class)?;
    router.insert("/collections/{name}", PathPattern::Collection)?;
    Ok(())
}

/// Adds the paths of all deposits, and of one.
fn insert_deposits(router: &mut Router<PathPattern>) -> Result<(), InsertError>
    requires { router.now ≡ definition_rows }
    ensures { OnOk result (router.new ≡ rows_with_deposits) }
{
    router.insert("/deposits", PathPattern::Deposits)?;
    router.insert("/deposits/{number}", PathPattern::Deposit)?;
    Ok(())
}

/// Adds the paths below a deposit: of its holds, its bag, a file of it, and its audit.
fn insert_parts_of_deposit(router: &mut Router<PathPattern>) -> Result<(), InsertError>
    requires { router.now ≡ rows_with_deposits }
    ensures { OnOk result (router.new ≡ rows_with_parts_of_deposit) }
{
    router.insert("/deposits/{number}/holds", PathPattern::HoldsOfDeposit)?;
    router.insert("/deposits/{number}/bag", PathPattern::Bag)?;
    router.insert("/deposits/{number}/files/{*path}", PathPattern::File)?;
    router.insert("/deposits/{number}/audit", PathPattern::Audit)?;
    Ok(())
}

/// Adds the paths of all holds, of one, and of what is due.
fn insert_holds_and_due(router: &mut Router<PathPattern>) -> Result<(), InsertError>
    requires { router.now ≡ rows_with_parts_of_deposit }
    ensures { OnOk result (router.new ≡ the_rows) }
{
    router.insert("/holds", PathPattern::Holds)?;
    router.insert("/holds/{number}", PathPattern::Hold)?;
    router.insert("/due", PathPattern::Due)?;
    Ok(())
}

/// Adds each path with its pattern.
fn insert_patterns(router: &mut Router<PathPattern>) -> Result<(), InsertError>
    requires { router.now ≡ [] }
    ensures { OnOk result (router.new ≡ the_rows) }
{
    insert_definitions(router)?;
    insert_deposits(router)?;
    insert_parts_of_deposit(router)?;
    insert_holds_and_due(router)
}

/// The router of all paths.
fn pattern_router(alloc: Global) -> Result<Router<PathPattern>, InsertError>
    ensures { IfOk result (λ router. router ≡ the_rows) }
{
    let mut router = Router::new(alloc);
    insert_patterns(&mut router)?;
    Ok(router)
}

/// The table of the routes. There is one such table, and contracts see its rows.
#[derive(Drop)]
pub struct Routes {
    router: Router<PathPattern>,
}

impl Model for Routes {
    ghost use Rattle.std.specs.Prelude.{◌≡◌};
    ghost use Rattle.matchit.specs.Router.{RouteOf};
    ghost use Rattle.matchit.specs.Rows.{RowsOf};
    ghost use Rattle.desk_routes.specs.Rows.{the_rows};
    ghost use Rattle.desk_routes.specs.declared.resource.PathPattern.{PathPattern};

    ghost Value = { RowsOf (RouteOf PathPattern) };

    ghost view = { λ routes. routes.router };

    ghost invariant = { λ routes. routes.router ≡ the_rows };
}

impl Routes {
    /// The table. Fails where memory runs out.
    pub fn new(alloc: Global) -> Result<Routes, AllocError>
        ensures { IfOk result (λ routes. routes ≡ the_rows) }
    {
        match pattern_router(alloc) {
            Ok(router) => Ok(Routes { router }),
            Err(_) => Err(AllocError),
        }
    }

    /// What a path names, if anything: the resource of which the path is the spelling.
    pub fn find<'p>(&self, path: &'p str) -> Option<Resource<'p>>
        ensures { result ≡ resource_named path.now }
    {
        match self.router.at(path) {
            Ok(found) => resource_by_params(*found.value, &found.params),
            Err(_) => None,
        }
    }

    /// What a method on a path asks for.
    ///
    /// Refuses with `NoRoute` where the path names nothing, and with `Method` where the resource
    /// that it names doesn't take the method. Methods are compared exactly.
    pub fn route<'p>(&self, method: &str, path: &'p str) -> Result<Route<'p>, DeskRefusal>
        ensures { result ≡ route_of method.now path.now }
    {
        let Some(resource) = self.find(path) else {
            return Err(DeskRefusal::NoRoute);
        };
        let pattern = resource.pattern();
        match Method::read(method) {
            Some(method) => match route_at(method, resource) {
                Some(route) => Ok(route),
                None => Err(DeskRefusal::Method(pattern)),
            },
            None => Err(DeskRefusal::Method(pattern)),
        }
    }
}
