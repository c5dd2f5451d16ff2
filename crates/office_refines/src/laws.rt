//! Laws: by the rows of a legal history, an office answers what the history says.

ghost use Rattle.std.specs.Prelude.{◌≡◌, ℕ, [], ◌∷◌, None, Some, is_some, option_map, true};
ghost use Rattle.jiff.specs.Words.{epoch_day};
ghost use Rattle.office_core.specs.Actions.{action_text};
ghost use Rattle.office_core.specs.Policies.{IsPolicy, PolicyValue};
ghost use Rattle.office_core.specs.Rules.{Question, decision_of};
ghost use Rattle.office_core.specs.declared.request.Request.{Request};
ghost use Rattle.office_core.specs.declared.request.Request.TheVariants.{DownloadBag};
ghost use Rattle.office_rows.specs.Matching.{matching_rule};
ghost use Rattle.office_rows.specs.Rows.{this_version};
ghost use Rattle.office_history.specs.Answers as histories;
ghost use Rattle.office_history.specs.Answers.{after, answer};
ghost use Rattle.office_history.specs.Histories.{History, Installed, with_changes};
ghost use Rattle.office_history.specs.Pictures.{picture, rule_rows};
ghost use Rattle.office_history.specs.Runs.{IsLegal};
ghost use Rattle.office_by_rows.specs.Asking.{Visit, or_empty};
ghost use Rattle.office_by_rows.specs.Answers.{allowed_answer, due_list};
ghost use Rattle.office_by_rows.specs.Changes.{allowed_rows, installed};
ghost use Rattle.office_by_rows.specs.Refusals.{refusal};
ghost use Rattle.office_by_rows.specs.Serving.{serve};
ghost use Rattle.office_refines.specs.Refining.{HasBagOf, place_and_effect, refusal_before, rule_and_effect};

use bag_text::laws::one_list_fault;
use office_history::laws::{pictures_are_in_range, sound_bags};

/// What speaks against a request is told by the rows, and is what the history says.
pub fn refusals_are_exact()
    ensures { (h : History) (visit : Visit) (request : Request) → IsLegal h
        → refusal (picture this_version h) visit request
        ≡ Some (refusal_before h visit.day visit.caller request) }
{
    pictures_are_in_range();
}

/// Where nothing speaks against a request, the rows tell its answer, which is the history's.
pub fn answers_are_exact()
    ensures { (h : History) (visit : Visit) (request : Request) → IsLegal h
        → refusal_before h visit.day visit.caller request ≡ None
        → allowed_answer (picture this_version h) visit request
        ≡ Some (answer h visit.day visit.caller request) }
{
    pictures_are_in_range();
    sound_bags();
    one_list_fault();
}

/// Where nothing speaks against the download of a bag, the rows have its files, and its content at each path.
pub fn files_are_exact()
    ensures { (h : History) (visit : Visit) (n : ℕ) → IsLegal h
        → refusal_before h visit.day visit.caller (DownloadBag n) ≡ None
        → HasBagOf h n (picture this_version h) }
{
    pictures_are_in_range();
    sound_bags();
    one_list_fault();
}

/// Where nothing speaks against a request, the rows tell which rows it leaves: the picture of the
/// history after it.
pub fn rows_are_exact()
    ensures { (h : History) (visit : Visit) (request : Request) → IsLegal h
        → refusal_before h visit.day visit.caller request ≡ None
        → allowed_rows (picture this_version h) visit request
        ≡ Some (picture this_version (after h visit.day visit.caller request)) }
{
    pictures_are_in_range();
}

/// What a request does to the rows of a legal history is what it does to the history: they tell its
/// answer, and leave the picture of the history after it. Any request will do, in range or not.
pub fn requests_are_exact()
    ensures { (h : History) (visit : Visit) (request : Request) → IsLegal h
        → serve (picture this_version h) visit request
        ≡ Some (
          answer h visit.day visit.caller request,
          picture this_version (after h visit.day visit.caller request),
        ) }
{
    refusals_are_exact();
    answers_are_exact();
    rows_are_exact();
}

/// No legal office is taken for an altered one: its rows tell what each request does.
pub fn no_legal_office_is_taken_for_an_altered_one()
    ensures { (h : History) (visit : Visit) (request : Request) → IsLegal h
        → is_some (serve (picture this_version h) visit request) ≡ true }
{
    requests_are_exact();
}

/// What a request answers and leaves is told by the rows alone: legal histories with the same rows
/// answer it alike, and have the same rows after it.
pub fn alike_rows_are_served_alike()
    ensures answers { (h k : History) (visit : Visit) (request : Request) → IsLegal h → IsLegal k
        → picture this_version h ≡ picture this_version k
        → answer h visit.day visit.caller request ≡ answer k visit.day visit.caller request }
    ensures rows { (h k : History) (visit : Visit) (request : Request) → IsLegal h → IsLegal k
        → picture this_version h ≡ picture this_version k
        → picture this_version (after h visit.day visit.caller request)
        ≡ picture this_version (after k visit.day visit.caller request) }
{
    requests_are_exact();
}

/// An install of a policy leaves of the rows of any history the picture of the history after it.
pub fn installs_are_exact()
    ensures { (h : History) (policy : PolicyValue)
        → installed policy (picture this_version h)
        ≡ picture this_version (with_changes h (Installed policy ∷ [])) }
{}

/// The due list of the rows of a legal history is the history's.
pub fn due_lists_are_exact()
    ensures { (h : History) (visit : Visit) → IsLegal h
        → due_list (picture this_version h) visit
        ≡ Some (histories.due_list h visit.day visit.caller) }
{
    pictures_are_in_range();
}

/// The rule that is found among the rows of a policy on a day is the one that decides on that day, with
/// its number as its place.
pub fn matching_rules_decide()
    ensures { (policy : PolicyValue) (asked : Question) → IsPolicy policy
        → option_map place_and_effect
        (matching_rule asked.role (action_text asked.action) (or_empty asked.collection)
        (or_empty asked.class) (epoch_day asked.day) (rule_rows 1 policy.rules))
        ≡ option_map rule_and_effect (decision_of policy.rules asked) }
{}
