//! An office that is stopped, and found again in its files.

ghost use Rattle.std.specs.Prelude.{◌≡◌, ◌≤◌, ◌⊎◌, IfOk, IfSome, IsTrue, List, None, OnErr};
ghost use Rattle.sqlite.specs.FileStore.{view, state as files_state};
ghost use Rattle.sqlite.specs.Files.{file_state, image_of};
ghost use Rattle.sqlite.specs.Recovery.{Image};
ghost use Rattle.sqlite.specs.State.{HasCleanDisk};
ghost use Rattle.sqlite.specs.View.{IsClean, doubt};
ghost use Rattle.office_core.specs.declared.answer.Answer.{Answer as AnswerValue};
ghost use Rattle.office_rows.specs.Rows.{this_version};
ghost use Rattle.office_history.specs.Histories.{History};
ghost use Rattle.office_history.specs.Answers.{after};
ghost use Rattle.office_history.specs.Runs.{IsLegal, Item};
ghost use Rattle.office_tables.specs.Found.{HoldsWhere, PicksUp};
ghost use Rattle.office_tables.specs.Opening.{HasVersion};
ghost use Rattle.office_engine.specs.Storing.{IsStoredBy, IsStoredOfRun, IsLeftOf, IsLeftOfEither, IsLeftOfRun};

use office_core::{Answer, Day, Request};
use office_engine::Office;
use sqlite::{Connection, FileStore, Files, Options};
use sqlite_disk::Disk;
use std::alloc::{AllocError, Global};

/// The store of a connection, as it is when the program stops.
fn stop<D: Disk + Drop>(office: Connection<FileStore<D>>) -> FileStore<D>
    ensures clean { doubt (file_state office).is_clean ≤ doubt (view result).is_clean }
    ensures holds { IsClean (view result) → (image : Image) → (files_state result).may_leave image
        → HoldsWhere (file_state office).may_leave image }
{
    office.into_store()
}

/// Serves a request, and stops there: the files as they are then, which may be what a crash leaves.
pub fn stop_in<D: Disk + Drop>(
    alloc: Global,
    office: Office<FileStore<D>>,
    day: Day,
    caller: &str,
    request: &Request<'_>,
) -> FileStore<D>
    // They hold the office before the request, or after it.
    ensures leaves { IsClean (view result) → (h : History) → IsLegal h
        → IsTrue (file_state office).is_open → IsStoredBy h (file_state office) → (image : Image)
        → (files_state result).may_leave image
        → HoldsWhere (IsLeftOfEither h (after h day caller.now request.now)) image }
{
    stop_after(alloc, office, &Some((day, caller, request)), &[]).files
}

/// What is left of a run that was stopped after its last request.
#[derive(Drop)]
pub struct StoppedRun<D: Disk + Drop> {
    /// What the requests were answered.
    pub answers: Result<Vec<Answer>, AllocError>,
    /// The files as they are then, which may be what a crash leaves.
    pub files: FileStore<D>,
}

/// Serves requests one after the other, and stops there.
pub fn stop_in_run<D: Disk + Drop>(
    alloc: Global,
    office: Office<FileStore<D>>,
    items: &[(Day, &str, Request<'_>)],
) -> StoppedRun<D>
    // They hold the office that the answers tell, or that one with the change of a failed request.
    ensures leaves { IsClean (view result.files)
        → IfOk result.answers (λ answers.
        (h : History) → IsLegal h → IsTrue (file_state office).is_open
        → IsStoredBy h (file_state office) → (image : Image)
        → (files_state result.files).may_leave image
        → HoldsWhere (IsLeftOfRun h items.now answers.items) image) }
    // Where there was no room for the answers, the office as it was.
    ensures failed { IsClean (view result.files)
        → OnErr result.answers
        ((h : History) → IsTrue (file_state office).is_open → IsStoredBy h (file_state office)
        → (image : Image) → (files_state result.files).may_leave image
        → HoldsWhere (IsLeftOf h) image) }
{
    stop_after(alloc, office, &None, items)
}

/// Serves the request, or where there is none the items, and stops there. Of a single request no answer
/// is handed back.
fn stop_after<D: Disk + Drop>(
    alloc: Global,
    mut office: Office<FileStore<D>>,
    one: &Option<(Day, &str, &Request<'_>)>,
    items: &[(Day, &str, Request<'_>)],
) -> StoppedRun<D>
    ensures one { IsClean (view result.files)
        → IfSome one.now (λ item.
        (h : History) → IsLegal h → IsTrue (file_state office).is_open
        → IsStoredBy h (file_state office) → (image : Image)
        → (files_state result.files).may_leave image
        → HoldsWhere (IsLeftOfEither h (after h item.0 item.1.now item.2.now)) image) }
    ensures run { IsClean (view result.files) → one.now ≡ None
        → IfOk result.answers (λ answers.
        (h : History) → IsLegal h → IsTrue (file_state office).is_open
        → IsStoredBy h (file_state office) → (image : Image)
        → (files_state result.files).may_leave image
        → HoldsWhere (IsLeftOfRun h items.now answers.items) image) }
    ensures failed { IsClean (view result.files) → one.now ≡ None
        → OnErr result.answers
        ((h : History) → IsTrue (file_state office).is_open → IsStoredBy h (file_state office)
        → (image : Image) → (files_state result.files).may_leave image
        → HoldsWhere (IsLeftOf h) image) }
{
    match one {
        Some((day, caller, request)) => {
            let _answer = office.step(alloc, *day, caller, request);
            StoppedRun {
                answers: Ok(Vec::new(alloc)),
                files: stop(office.into_connection()),
            }
        }
        None => {
            let answers = office.run(alloc, items);
            StoppedRun {
                answers,
                files: stop(office.into_connection()),
            }
        }
    }
}

/// The office that is found in files. `None` where they can't be opened, or are no office of this
/// version.
pub fn reopen<D: Disk + Drop>(
    alloc: Global,
    files: Files<D>,
    options: Options,
) -> Option<Office<FileStore<D>>>
    requires log { IsTrue (D.Disk.is_usable files.log) }
    requires db { IsTrue (D.Disk.is_usable files.db) }
    // It shows the database that the files hold, and makes none.
    ensures found { IfSome result (λ office.
        HasCleanDisk (file_state office) → PicksUp (image_of D.Disk files) (file_state office)) }
    // It is an office of this version, and never any other database.
    ensures version { IfSome result (λ office.
        HasCleanDisk (file_state office) → IsTrue (file_state office).is_open
        → HasVersion (file_state office).now this_version) }
    // Where they hold one of two offices, it is one of them.
    ensures either { IfSome result (λ office.
        HasCleanDisk (file_state office) → (g h : History)
        → HoldsWhere (IsLeftOfEither g h) (image_of D.Disk files)
        → ∥ (IsStoredBy g (file_state office) ⊎ IsStoredBy h (file_state office)) ∥₁) }
    // Where they hold what a run left that was answered so, it is the office of that run.
    ensures after_run { IfSome result (λ office.
        HasCleanDisk (file_state office)
        → (h : History) (items : List Item) (given : List AnswerValue)
        → HoldsWhere (IsLeftOfRun h items given) (image_of D.Disk files)
        → ∥ IsStoredOfRun h items given (file_state office) ∥₁) }
{
    let conn = match Connection::open_files(alloc, files, options) {
        Ok(conn) => conn,
        Err(_) => return None,
    };
    match Office::adopt(conn) {
        Ok(office) => Some(office),
        Err(_) => None,
    }
}
