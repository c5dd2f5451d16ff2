//! Laws of what is done with an office.

ghost use Rattle.std.specs.Prelude.{◌≡◌, ℕ, Bool, List, length};
ghost use Rattle.jiff.specs.Types.{Date};
ghost use Rattle.sqlite.specs.Files.{image_of};
ghost use Rattle.sqlite.specs.Held.{Held, state};
ghost use Rattle.sqlite.specs.Recovery.{Image};
ghost use Rattle.sqlite.specs.State.{HasCleanDisk};
ghost use Rattle.sqlite.specs.Steps.{over_memory};
ghost use Rattle.sqlite_wal.specs.Reads.{AreClean};
ghost use Rattle.office_core.specs.declared.answer.Answer.{Answer};
ghost use Rattle.office_history.specs.Histories.{History};
ghost use Rattle.office_history.specs.Runs.{IsLegal, Item, Run};
ghost use Rattle.office_tables.specs.Found.{HoldsWhere};
ghost use Rattle.office_engine.specs.Storing.{IsStoredBy, IsLeftAt, IsLegalAndStored};
ghost use Rattle.office_contents.specs.declared.version.TableVersion.{TableVersion as Version};
ghost use Rattle.desk_listening.specs.Listening.{Connection};
ghost use Rattle.desk_serving.specs.Serving.{DeskRequest};
ghost use Rattle.http_desk.specs.ReplayRuns.{IsRunOf};
ghost use Rattle.office_commands.specs.Deeds.{AreDone, Deed, LeadOn, deeds_of_connections, deeds_of_records, records_of_connections, texts_of_connections};
ghost use Rattle.office_commands.specs.Stores.{InFile, InMemory, LeadsInto};
ghost use Rattle.office_stores.specs.Stores.{made_office};

use sqlite::Alter;
use sqlite_disk::Disk;

/// What is done with an office over any store leads the history that the store holds on to one that it holds
/// then: on an honest disk, whichever legal history it was.
pub fn deeds_lead_on<S: Alter>()
    ensures { (deeds : List Deed) (old new : Held S) → AreDone S.Store deeds old new
        → HasCleanDisk (state S.Store new) → (h : History) → IsLegal h
        → IsStoredBy h (state S.Store old)
        → (next : History) × LeadOn deeds h next × IsLegalAndStored next (state S.Store new) }
{}

/// An office that was just made in memory keeps a history that the deeds lead to.
pub fn memory_leads_on()
    ensures { (deeds : List Deed) (office : InMemory deeds)
        → (next : History) × LeadOn deeds made_office next
        × IsLegalAndStored next (state over_memory office.new) }
{}

/// The files that an office was closed into hold a history that the deeds lead to: on an honest disk, from
/// whichever legal history they held at first, by tables of any known version.
pub fn files_lead_on<D: Disk>()
    ensures { (first : Image) (makes : Bool) (deeds : List Deed)
        (office : InFile D.Disk first makes deeds)
        → AreClean D.Disk office.files.log office.files.db → (version : Version) (h : History)
        → IsLegal h → HoldsWhere (IsLeftAt version h) first
        → LeadsInto deeds h (image_of D.Disk office.files) }
{}

/// Where records are answered, or what is heard over connections, the texts are those of a run of the office
/// that asks what is heard, and of the desk's refusals.
pub fn answers_are_runs()
    ensures records { (items : List DeskRequest) (texts : List (List ℕ)) (h next : History)
        → length texts ≡ length items → LeadOn (deeds_of_records items texts) h next
        → (run : List Item) × (answers : List Answer) × IsRunOf items texts run answers
        × Run h run answers next }
    ensures connections { (day : Date) (connections : List Connection) (h next : History)
        → LeadOn (deeds_of_connections day connections) h next
        → (run : List Item) × (answers : List Answer)
        × IsRunOf (records_of_connections day connections)
        (texts_of_connections connections) run answers × Run h run answers next }
{}
