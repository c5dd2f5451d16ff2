//! Laws of the definitions alone.

ghost use Rattle.std.specs.Prelude.{◌≡◌, ◌++◌, ◌≤◌, ℕ, List, length};
ghost use Rattle.jiff.specs.Types.{Date};
ghost use Rattle.sqlite.specs.Held.{Held};
ghost use Rattle.http_desk.specs.Records.{IsRecord, record_text, HasLine, WantsMore, BeginsWithNone, CanNotBegin};
ghost use Rattle.http_desk.specs.RecordLists.{AreRecords, HasRecords, request_texts, max_records};
ghost use Rattle.desk_serving.specs.Serving.{DeskRequest};
ghost use Rattle.http_desk.specs.Replaying.{AnswersEach};
ghost use Rattle.http_desk.specs.ReplayRuns.{RunsEach};

pub use desk_hearing::laws::{first_refusals, longer_input, one_hearing, spelled_requests};
pub use desk_serving::laws::refusals_change_nothing;
use sqlite::Alter;

/// An input begins with one record at most, and is read in one way.
pub fn one_reading()
    ensures { (day day' : Date) (bytes bytes' rest rest' : List ℕ)
        → IsRecord day bytes → IsRecord day' bytes'
        → record_text day bytes ++ rest ≡ record_text day' bytes' ++ rest'
        → (day ≡ day') × (bytes ≡ bytes') × (rest ≡ rest') }
{}

/// Where more bytes are wanted, no record begins the input yet, and there are no more bytes than a
/// record has before its last line feed. Where a record's line has come, bytes that complete it are
/// wanted.
pub fn wanted_bytes()
    ensures none { (input : List ℕ) → WantsMore input → BeginsWithNone input }
    ensures short { (input : List ℕ) → WantsMore input → length input ≤ 16800024 }
    ensures line { (input : List ℕ) → HasLine input → ¬ CanNotBegin input }
{}

/// An input has one list of records.
pub fn one_list()
    ensures { (input rest rest' : List ℕ) (items items' : List DeskRequest)
        → HasRecords input items rest → HasRecords input items' rest'
        → (items ≡ items') × (rest ≡ rest') }
{}

/// Records, and what can't begin one, whatever follows; or as many records as an input may have,
/// and anything: these are the records of the input, whatever is still to be read.
pub fn last_record()
    ensures bad { (items : List DeskRequest) (rest others : List ℕ)
        → AreRecords items → length items ≤ max_records → CanNotBegin rest
        → HasRecords (request_texts items ++ (rest ++ others)) items (rest ++ others) }
    ensures full { (items : List DeskRequest) (rest : List ℕ)
        → AreRecords items → length items ≡ max_records
        → HasRecords (request_texts items ++ rest) items rest }
    ensures end { (items : List DeskRequest) (rest : List ℕ)
        → AreRecords items → length items ≤ max_records → WantsMore rest
        → HasRecords (request_texts items ++ rest) items rest }
{}

/// Records that are answered, one after the other, are a run of the office that asks what is heard of
/// them: whichever legal history the tables picture before, they picture the history that this run
/// makes of it after the last record.
pub fn replays_are_runs<S: Alter>()
    ensures { (old new : Held S) (items : List DeskRequest) (texts : List (List ℕ))
        → AnswersEach S.Store old items texts new → RunsEach S.Store old new items texts }
{}
