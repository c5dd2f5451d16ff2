//! What a method asks of a resource.

ghost use Rattle.std.specs.Prelude.{◌≡◌};
ghost use Rattle.desk_routes.specs.Table.{route_at};

use crate::file_path::FilePath;
use crate::method::Method;
use crate::resource::Resource;
use office_core::Name;

/// What a method asks of a resource. Deposits and holds are given by their numbers.
#[derive(Drop)]
pub enum Route<'p> {
    /// `PUT /classes/NAME`
    DefineClass(Name<'p>),
    /// `PUT /collections/NAME`
    DefineCollection(Name<'p>),
    /// `POST /deposits`
    Deposit,
    /// `GET /deposits`
    List,
    /// `GET /deposits/N`
    Record(u32),
    /// `DELETE /deposits/N`
    Dispose(u32),
    /// `GET /deposits/N/holds`
    Holds(u32),
    /// `GET /deposits/N/bag`
    DownloadBag(u32),
    /// `GET /deposits/N/files/PATH`
    DownloadFile { deposit: u32, path: FilePath<'p> },
    /// `GET /deposits/N/audit`
    Audit(u32),
    /// `POST /holds`
    PlaceHold,
    /// `DELETE /holds/K`
    Release(u32),
    /// `GET /due`
    DueList,
}

fn delete_route<'p>(resource: Resource<'p>) -> Option<Route<'p>>
    ensures { result ≡ route_at Method.Delete resource.entry }
{
    match resource {
        Resource::Deposit(number) => Some(Route::Dispose(number)),
        Resource::Hold(number) => Some(Route::Release(number)),
        _ => None,
    }
}

fn get_route<'p>(resource: Resource<'p>) -> Option<Route<'p>>
    ensures { result ≡ route_at Method.Get resource.entry }
{
    match resource {
        Resource::Deposits => Some(Route::List),
        Resource::Deposit(number) => Some(Route::Record(number)),
        Resource::HoldsOfDeposit(number) => Some(Route::Holds(number)),
        Resource::Bag(number) => Some(Route::DownloadBag(number)),
        Resource::File { deposit, path } => Some(Route::DownloadFile { deposit, path }),
        Resource::Audit(number) => Some(Route::Audit(number)),
        Resource::Due => Some(Route::DueList),
        _ => None,
    }
}

fn post_route<'p>(resource: Resource<'p>) -> Option<Route<'p>>
    ensures { result ≡ route_at Method.Post resource.entry }
{
    match resource {
        Resource::Deposits => Some(Route::Deposit),
        Resource::Holds => Some(Route::PlaceHold),
        _ => None,
    }
}

fn put_route<'p>(resource: Resource<'p>) -> Option<Route<'p>>
    ensures { result ≡ route_at Method.Put resource.entry }
{
    match resource {
        Resource::Class(name) => Some(Route::DefineClass(name)),
        Resource::Collection(name) => Some(Route::DefineCollection(name)),
        _ => None,
    }
}

/// What the method asks of the resource, where the resource takes it.
pub(crate) fn route_at<'p>(method: Method, resource: Resource<'p>) -> Option<Route<'p>>
    ensures { result ≡ route_at method resource.entry }
{
    match method {
        Method::Delete => delete_route(resource),
        Method::Get => get_route(resource),
        Method::Post => post_route(resource),
        Method::Put => put_route(resource),
    }
}
