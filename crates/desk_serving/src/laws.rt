//! Laws of the definitions alone.

ghost use Rattle.std.specs.Prelude.{◌≡◌, ℕ, Err, List, []};
ghost use Rattle.jiff.specs.Types.{Date};
ghost use Rattle.sqlite.specs.Held.{Held};
ghost use Rattle.office_core.specs.declared.request.Request.{Request};
ghost use Rattle.office_history.specs.Answers.{OnlyReads, change};
ghost use Rattle.office_history.specs.Histories.{History};
ghost use Rattle.desk_routes.specs.declared.refusal.DeskRefusal.{DeskRefusal};
ghost use Rattle.desk_hearing.specs.Hearing.{Hears};
ghost use Rattle.desk_answers.specs.Answers.{refusal_text};
ghost use Rattle.desk_log.specs.Notes.{kind_of};
ghost use Rattle.desk_log.specs.declared.note.RequestKind.TheVariants.{Reading};
ghost use Rattle.desk_serving.specs.Serving.{DeskReply, DeskRequest, IsAnswered};

use sqlite::Alter;

/// Bytes that the desk refuses are answered by the text of that refusal, and leave the office as it
/// is.
pub fn refusals_change_nothing<S: Alter>()
    ensures { (request : DeskRequest) (reply : DeskReply) (refusal : DeskRefusal)
        (old new : Held S) → Hears request.bytes (Err refusal)
        → IsAnswered S.Store request reply old new
        → (new ≡ old) × (reply.text ≡ refusal_text refusal) }
{}

/// What is noted as a reading changes nothing, and what only reads is noted as one.
pub fn readings_change_nothing()
    ensures change { (h : History) (day : Date) (caller : List ℕ) (request : Request)
        → kind_of request ≡ Reading → change h day caller request ≡ [] }
    ensures reads { (request : Request) → OnlyReads request → kind_of request ≡ Reading }
{}
