//! Downloads of files.

ghost use Rattle.std.specs.Prelude.{◌≡◌, None, Some, if◌then◌else◌, option_copied, option_map, pos, true};
ghost use Rattle.bag_text.specs.Paths.{is_good};
ghost use Rattle.office_core.specs.declared.request.Request.TheVariants as requests;
ghost use Rattle.office_contents.specs.Calls.{GoesOnInTurn, GoesOnInside};
ghost use Rattle.office_contents.specs.Contents.{Does, IsAltered, RefusesIf};
ghost use Rattle.office_history.specs.Answers.{file_answer};
ghost use Rattle.office_access.specs.Asking.{visit_on};
ghost use Rattle.office_queries.specs.Reading.{IsReadFor, ServesReading};

use bag_text::laws::good_paths;
use bag_text::{BagPath, as_text};
use office_access::kept_deposit;
use office_core::{Action, Answer, Day, Refusal, Sequence};
use office_tables::{TableFault, intact_file_of};
use sqlite::{Alter, Transaction};

/// The path that the bytes are, where it is one that a bag may have.
fn bag_path(bytes: &[u8]) -> Option<&str>
    ensures { option_copied result ≡ (if is_good bytes.now then Some bytes.now else None) }
{
    good_paths();
    match BagPath::read(as_text(bytes)?) {
        Ok(path) => Some(path.as_str()),
        Err(_) => None,
    }
}

/// The file of that content, or that there is none.
fn file_answer(content: Option<Vec<u8>>) -> Answer
    ensures { result ≡ file_answer (option_map (λ bytes. bytes.items) content) }
{
    match content {
        Some(content) => Answer::File {
            bytes: Sequence::of(content),
        },
        None => Answer::Refused(Refusal::NoFile),
    }
}

/// The answer with the file at that path of the bag of that deposit, where its content is intact, or that there
/// is none.
///
/// Fails with `Store` where its content is not, and with `Memory` or `Store`.
#[tactic(auto, using(crate::proofs::Calls::calls_in_turn))]
fn stored_file<S: Alter>(
    tx: &mut Transaction<'_, S>,
    number: u32,
    path: &[u8],
) -> Result<Answer, TableFault>
    ensures inside { GoesOnInTurn S.Store tx.old.conn tx.new.conn result }
    ensures reads { Does S.Store tx.old.conn.now tx.new.conn.now result
        (IsReadFor (requests.DownloadFile number path.entry)) }
    ensures altered { is_good path.now ≡ true
        → RefusesIf S.Store tx.old.conn.now tx.new.conn.now result
        (IsAltered (pos number) path.now) }
{
    match bag_path(path) {
        Some(text) => {
            let content = intact_file_of(tx, number, text)?;
            Ok(file_answer(content))
        }
        None => Ok(file_answer(None)),
    }
}

/// Answers the file at that path of a deposit's bag, where the SHA-256 of its content is still its mark. The
/// path is any bytes: one that no bag may have is that of no file.
///
/// Fails with `Memory` or `Store`, as where it is not.
#[tactic(auto, using(office_contents::proofs::InTurn::then_in_turn))]
pub fn download_file<S: Alter>(
    tx: &mut Transaction<'_, S>,
    day: Day,
    caller: &str,
    number: u32,
    path: &[u8],
) -> Result<Answer, TableFault>
    ensures inside { GoesOnInside S.Store tx.old.conn tx.new.conn result }
    ensures serves { ServesReading S.Store tx.old.conn.now tx.new.conn.now result
        (visit_on day caller.now) (requests.DownloadFile number path.entry) }
{
    match kept_deposit(tx, day, caller, Action::Download, number)? {
        Ok(_) => stored_file(tx, number, path),
        Err(why) => Ok(Answer::Refused(why)),
    }
}
