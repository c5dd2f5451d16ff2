//! What a path names, and the patterns of such paths.

ghost use Rattle.std.specs.Prelude.{◌≡◌};
ghost use Rattle.matchit.specs.Params.{AllText};
ghost use Rattle.desk_routes.specs.Resources.{pattern_of};
ghost use Rattle.desk_routes.specs.Rows.{resource_by_texts, name_in, number_in, path_in, texts_in};
ghost use Rattle.desk_routes.specs.Table.{methods_of};

use crate::file_path::FilePath;
use crate::method::Method;
use crate::number::read_number;
use matchit::Params;
use office_core::Name;

/// A pattern of paths that name something.
#[derive(Clone, Copy, Debug, PartialEq, Eq)]
pub enum PathPattern {
    /// `/classes/NAME`
    Class,
    /// `/collections/NAME`
    Collection,
    /// `/deposits`
    Deposits,
    /// `/deposits/N`
    Deposit,
    /// `/deposits/N/holds`
    HoldsOfDeposit,
    /// `/deposits/N/bag`
    Bag,
    /// `/deposits/N/files/PATH`
    File,
    /// `/deposits/N/audit`
    Audit,
    /// `/holds`
    Holds,
    /// `/holds/K`
    Hold,
    /// `/due`
    Due,
}

impl PathPattern {
    /// The methods that a path of the pattern takes, in the order of the alphabet.
    pub fn methods(self) -> &'static [Method]
        ensures { result.now ≡ methods_of self }
    {
        match self {
            PathPattern::Class | PathPattern::Collection => &[Method::Put],
            PathPattern::Deposits => &[Method::Get, Method::Post],
            PathPattern::Deposit => &[Method::Delete, Method::Get],
            PathPattern::HoldsOfDeposit
            | PathPattern::Bag
            | PathPattern::File
            | PathPattern::Audit
            | PathPattern::Due => &[Method::Get],
            PathPattern::Holds => &[Method::Post],
            PathPattern::Hold => &[Method::Delete],
        }
    }
}

/// What a path names: a case for each `PathPattern`, with the parts of the path. Names are names as
/// they are written, and numbers have 1 to 7 digits, without a leading zero: nothing is decoded.
#[derive(Drop)]
pub enum Resource<'p> {
    Class(Name<'p>),
    Collection(Name<'p>),
    Deposits,
    Deposit(u32),
    HoldsOfDeposit(u32),
    Bag(u32),
    File { deposit: u32, path: FilePath<'p> },
    Audit(u32),
    Holds,
    Hold(u32),
    Due,
}

impl Resource<'_> {
    /// The pattern of the paths that name such a resource.
    pub fn pattern(&self) -> PathPattern
        ensures { result ≡ pattern_of self.now }
    {
        match self {
            Resource::Class(_) => PathPattern::Class,
            Resource::Collection(_) => PathPattern::Collection,
            Resource::Deposits => PathPattern::Deposits,
            Resource::Deposit(_) => PathPattern::Deposit,
            Resource::HoldsOfDeposit(_) => PathPattern::HoldsOfDeposit,
            Resource::Bag(_) => PathPattern::Bag,
            Resource::File { .. } => PathPattern::File,
            Resource::Audit(_) => PathPattern::Audit,
            Resource::Holds => PathPattern::Holds,
            Resource::Hold(_) => PathPattern::Hold,
            Resource::Due => PathPattern::Due,
        }
    }
}

fn name_in<'p>(params: &Params<'_, 'p>) -> Option<Name<'p>>
    ensures { AllText (texts_in params.now) → result ≡ name_in (texts_in params.now) }
{
    Name::read(params.get("name")?)
}

fn number_in(params: &Params<'_, '_>) -> Option<u32>
    ensures { AllText (texts_in params.now) → result ≡ number_in (texts_in params.now) }
{
    read_number(params.get("number")?)
}

fn path_in<'p>(params: &Params<'_, 'p>) -> Option<FilePath<'p>>
    ensures { AllText (texts_in params.now) → result ≡ path_in (texts_in params.now) }
{
    FilePath::read(params.get("path")?)
}

/// The resource of a path that has the pattern, by what the parameters took of it.
pub(crate) fn resource_by_params<'p>(
    pattern: PathPattern,
    params: &Params<'_, 'p>,
) -> Option<Resource<'p>>
    ensures { AllText (texts_in params.now)
        → result ≡ resource_by_texts pattern (texts_in params.now) }
{
    match pattern {
        PathPattern::Class => Some(Resource::Class(name_in(params)?)),
        PathPattern::Collection => Some(Resource::Collection(name_in(params)?)),
        PathPattern::Deposits => Some(Resource::Deposits),
        PathPattern::Deposit => Some(Resource::Deposit(number_in(params)?)),
        PathPattern::HoldsOfDeposit => Some(Resource::HoldsOfDeposit(number_in(params)?)),
        PathPattern::Bag => Some(Resource::Bag(number_in(params)?)),
        PathPattern::File => Some(Resource::File {
            deposit: number_in(params)?,
            path: path_in(params)?,
        }),
        PathPattern::Audit => Some(Resource::Audit(number_in(params)?)),
        PathPattern::Holds => Some(Resource::Holds),
        PathPattern::Hold => Some(Resource::Hold(number_in(params)?)),
        PathPattern::Due => Some(Resource::Due),
    }
}
