//! Laws of the office: those of its histories, and what its tables tell of them.

ghost use Rattle.std.specs.Prelude.{◌≡◌, ◌↔◌, ◌≤◌, ◌++◌, ℕ, IsTrue, List, [], ◌∷◌, Some, map, pos};
ghost use Rattle.std.specs.List.{AllByRecursion};
ghost use Rattle.std.specs.List.Sorted.{IsPermutation};
ghost use Rattle.jiff.specs.Types.{Date};
ghost use denote.Ref.{Bor};
ghost use Rattle.sqlite.specs.Effect.{Database};
ghost use Rattle.sqlite.specs.Held.{Held, state};
ghost use Rattle.sqlite.specs.Tree.{Trees};
ghost use Rattle.office_core.specs.declared.answer.Answer.{Answer};
ghost use Rattle.office_core.specs.declared.answer.Answer.TheVariants as answers;
ghost use Rattle.office_core.specs.declared.request.Request.{Request};
ghost use Rattle.office_core.specs.declared.request.Request.TheVariants.{DownloadBag, DownloadFile};
ghost use Rattle.office_rows.specs.Rows.{Tables, empty_office, this_version};
ghost use Rattle.office_contents.specs.Tables.{Becomes, IsOffice, contents_of, tables_of};
ghost use Rattle.office_contents.specs.Contents.{DiffersInBytes, IsMarked, StoresOnce};
ghost use Rattle.office_contents.specs.declared.version.TableVersion.{TableVersion};
ghost use Rattle.office_contents.specs.Versions.{Newest};
ghost use Rattle.office_history.specs.Histories.{History};
ghost use Rattle.office_history.specs.Answers.{after, answer};
ghost use Rattle.office_history.specs.Pictures.{due_rows, picture};
ghost use Rattle.office_history.specs.Stocks.{Stock, contents, stock};
ghost use Rattle.office_history.specs.RowRanges.{AreInRange};
ghost use Rattle.office_history.specs.Runs.{IsFailure, IsLater, IsLegal, Item, Run, new_history};
ghost use Rattle.office_by_rows.specs.Answers.{due_list};
ghost use Rattle.office_by_rows.specs.Asking.{Visit};
ghost use Rattle.office_by_rows.specs.Stock.{max_total, stock_by};
ghost use Rattle.office_access.specs.Contents.{Rows, rows_of};
ghost use Rattle.office_access.specs.Pictures.{Pictures};
ghost use Rattle.office_access.specs.Serving.{rows_after, serve_rows};
ghost use Rattle.office_upgrade.specs.Upgrading as rows;
ghost use Rattle.office_upgrade.specs.Upgrading.{TellsNoOther};
ghost use Rattle.office_engine.specs.ByRows.{RowsTell};
ghost use Rattle.office_engine.specs.Storing.{HasRows, IsFoundAfter, IsStoredAt, IsStoredBy, IsLeftAt, IsLeftWith};
ghost use Rattle.office_engine.specs.OtherBytes.{AreUnderDigests, HasDigestAt, HasDigestsOf, IsUnderDigest};
ghost use Rattle.office_engine.specs.Upgrading.{IsLeftOfUpgrade, LeavesAt, StoppedInTurn, TakesUp, all_rows_of};

pub use office_history::laws::{
    a_class_that_gets_its_old_years_back_has_its_old_due_days,
    a_hold_and_its_release_leave_the_counts, a_hold_of_the_collection_and_one_of_the_class_are_two,
    a_policy_without_days_answers_alike, accessions_are_used_once, audits_are_valid, changes_stand,
    closed_by_the_day_of_deposit, contents_are_stored_once, deposited_bags, disposals_stand,
    downloaded_as_deposited, due_lists_are_disposals, files_are_downloaded_as_deposited,
    later_deposits_are_covered, later_deposits_of_a_class_are_covered, limits_hold,
    numbers_are_given_once, one_picture, pictures_are_in_range, refused_changes_nothing,
    released_holds_are_not_live, revised_classes_move_due_days, runs_only_add, runs_stay_legal,
    sound_bags, the_least_live_hold_is_named, verdicts_decide, what_is_named_is_there,
    what_may_be_destroyed_is_on_the_due_list,
};
pub use office_refines::laws::{
    alike_rows_are_served_alike, due_lists_are_exact, installs_are_exact,
    no_legal_office_is_taken_for_an_altered_one, requests_are_exact,
};
use office_refines::laws::{files_are_exact, refusals_are_exact};
use office_tables::laws::{contents_are_those_of_files, files_have_their_contents};
use sqlite::Alter;

/// What `create` of the tables leaves pictures the history of a new office with those limits, and
/// nothing else does.
pub fn new_offices_are_pictured()
    ensures { (db : Database) (max_deposits max_holds : ℕ)
        → Becomes db (empty_office this_version (pos max_deposits) (pos max_holds)) × StoresOnce db
        ↔ Pictures (new_history max_deposits max_holds) db }
{}

/// Tables that picture a history hold exactly the contents of its kept bags, each once, under its own SHA-256 and with its
/// length; and the due day and the count of live holds that they keep of each deposit, destroyed or not, are those of the
/// history.
pub fn stored_columns_are_told()
    ensures contents { (db : Database) (h : History) → Pictures h db
        → IsPermutation (contents h) (map (λ c. c.bytes) (contents_of db)) }
    ensures marked { (db : Database) (h : History) → Pictures h db
        → AllByRecursion IsMarked (contents_of db) }
    ensures dues { (db : Database) (h : History) → Pictures h db
        → (tables_of db).dues ≡ due_rows h }
{
    contents_are_those_of_files();
}

/// Tables that picture two legal histories answer each request alike, whichever of the two is
/// asked: the rows of an office tell all that it answers by.
pub fn tables_tell_the_answer()
    ensures { (db : Database) (h k : History) → IsLegal h → IsLegal k
        → Pictures h db → Pictures k db
        → (day : Date) (caller : List ℕ) (request : Request)
        → answer h day caller request ≡ answer k day caller request }
{
    one_picture();
}

/// Whatever rows an office has, they tell at most one answer to a request, one list of what has
/// fallen due, and one stock: what is promised of the rows leaves a call no choice but to fail.
pub fn the_rows_tell_one_answer()
    ensures answer { (r : Rows) (visit : Visit) (request : Request) (a b : Answer)
        → RowsTell r visit request a → RowsTell r visit request b → a ≡ b }
    ensures due { (t : Tables) (visit : Visit) (a b : List ℕ)
        → due_list t visit ≡ Some a → due_list t visit ≡ Some b → a ≡ b }
    ensures stock { (db : Database) (a b : Stock)
        → stock_by (contents_of db) ≡ Some a → stock_by (contents_of db) ≡ Some b → a ≡ b }
{}

/// A legal office takes none of its own contents for an altered one: its rows and contents tell the answer of the
/// history to each request, and the rows after it.
pub fn no_legal_content_is_taken_for_an_altered_one()
    ensures { (db : Database) (h : History) (visit : Visit) (request : Request)
        → IsLegal h → Pictures h db
        → serve_rows (rows_of db) visit request
        ≡ Some (
          answer h visit.day visit.caller request,
          rows_after (rows_of db) request (answer h visit.day visit.caller request)
              (picture this_version (after h visit.day visit.caller request)),
        ) }
{
    requests_are_exact();
    files_have_their_contents();
}

/// A legal office takes none of its own sizes for an altered one: its contents tell the stock of the history, if a count of
/// 64 bits tells the bytes of it.
pub fn no_legal_stock_is_taken_for_an_altered_one()
    ensures { (db : Database) (h : History) → Pictures h db → (stock h).bytes ≤ max_total
        → stock_by (contents_of db) ≡ Some (stock h) }
{
    contents_are_those_of_files();
}

/// Whatever rows and contents an office has, the bytes of each file that it serves are those of the file's content row,
/// whose mark is their SHA-256.
pub fn bytes_are_downloaded_under_their_digest()
    ensures file { (db : Database) (visit : Visit) (n : ℕ) (path : Bor (List ℕ)) (bytes : List ℕ)
        → IsOffice db
        → RowsTell (rows_of db) visit (DownloadFile n path) (answers.File bytes)
        → IsUnderDigest db n path.now bytes }
    ensures bag { (db : Database) (visit : Visit) (n : ℕ) (bytes : List ℕ)
        → IsOffice db
        → RowsTell (rows_of db) visit (DownloadBag n) (answers.Bag bytes)
        → AreUnderDigests db n bytes }
{
    files_have_their_contents();
}

/// Where bytes of contents are not those that were deposited, and all else is as it was, an office serves none of
/// them: what it serves of a file, or of each file of a bag, has the SHA-256 of what was deposited there. So it is
/// that, or these two byte strings share a SHA-256.
pub fn altered_bytes_are_never_downloaded()
    ensures file { (db altered : Database) (h : History) (visit : Visit) (n : ℕ)
        (path : Bor (List ℕ)) (bytes : List ℕ)
        → IsLegal h → Pictures h db → DiffersInBytes db altered
        → RowsTell (rows_of altered) visit (DownloadFile n path) (answers.File bytes)
        → HasDigestAt h n path.now bytes }
    ensures bag { (db altered : Database) (h : History) (visit : Visit) (n : ℕ) (bytes : List ℕ)
        → IsLegal h → Pictures h db → DiffersInBytes db altered
        → RowsTell (rows_of altered) visit (DownloadBag n) (answers.Bag bytes)
        → HasDigestsOf h n bytes }
{
    refusals_are_exact();
    files_are_exact();
}

/// Tables that picture a legal history have only rows in range: a row out of its range is one that
/// no accepted change wrote.
pub fn tables_are_in_range()
    ensures { (db : Database) (h : History) → IsLegal h → Pictures h db
        → AreInRange this_version (tables_of db) }
{
    pictures_are_in_range();
}

/// What is found after a run has each change that its answers tell of. After a last answer that is
/// no failure it has no other.
pub fn accepted_changes_are_found()
    ensures later { (h found : History) (items : List Item) (given : List Answer)
        → IsFoundAfter h items given found
        → (told : History) × Run h items given told × IsLater told found }
    ensures exact { (h found : History) (items : List Item) (given : List Answer) (last : Answer)
        → IsFoundAfter h items (given ++ last ∷ []) found
        → (IsFailure last → ⊥) → Run h items (given ++ last ∷ []) found }
{}

/// What a crash leaves of an upgrade, whenever it was stopped, opened again and upgraded again, is the same history. It was
/// kept, by tables of any known version, or was itself left by a crash; and the upgrade may be stopped any number of times
/// before one ends.
pub fn a_stopped_upgrade_goes_on<S: Alter>()
    ensures once { (old stopped again done : Held S) (version : TableVersion) (h : History)
        → IsTrue (state S.Store old).is_open → IsStoredAt version h (state S.Store old)
        → LeavesAt (state S.Store old) (state S.Store stopped)
        → (state S.Store stopped).may_leave (state S.Store again).now.trees
        → TakesUp (state S.Store again) (state S.Store done) → IsStoredBy h (state S.Store done) }
    ensures often { (first left : Trees) (stops : List (Held S × Held S)) (version : TableVersion)
        (h : History) → IsLeftAt version h first → StoppedInTurn S.Store first stops left
        → IsLeftOfUpgrade version h left }
    ensures done { (again done : Held S) (version : TableVersion) (h : History)
        → IsLeftOfUpgrade version h (state S.Store again).now.trees
        → TakesUp (state S.Store again) (state S.Store done) → IsStoredBy h (state S.Store done) }
{}

/// Rows that a crash left are those of the office that takes them up, whichever they are.
pub fn rows_left_are_taken_up<S: Alter>()
    ensures { (again done : Held S) (r : Rows) → TellsNoOther Newest (all_rows_of r)
        → IsLeftWith r (state S.Store again).now.trees
        → rows.TakesUp (state S.Store again) (state S.Store done) → HasRows r (state S.Store done) }
{}
