//! Laws of the office, over the definitions alone.

ghost use Rattle.std.specs.Prelude.{◌≡◌, ◌↔◌, ◌≤◌, ◌≤ℤ◌, ◌<◌, ◌≢◌, ◌+◌, ℕ, ℤ, pos, List, [], ◌∷◌, ◌++◌, length, Option, Some, None, Ok, Err, true, false, Contains, slice_get, bytes_eq};
ghost use Rattle.std.specs.List.{AllByRecursion, IsDistinct};
ghost use denote.Ref.{Bor};
ghost use Rattle.jiff.specs.Types.{Date};
ghost use Rattle.jiff.specs.Words.{epoch_day};
ghost use Rattle.bag_text.specs.TransferForm.{File, IsBag, set_text, content_at};
ghost use Rattle.bag_text.specs.TransferFaults.{FaultIs};
ghost use Rattle.bag_text.specs.FaultTexts.{set_fault_text};
ghost use Rattle.bag_text.specs.declared.set_fault.SetFault.{SetFault};
ghost use Rattle.bag_text.specs.declared.declaration.Version.{Version};
ghost use Rattle.bag_check.specs.Validity.{report_of};
ghost use Rattle.bag_check.specs.Faults.{Fault, FirstFault};
ghost use Rattle.bag_check.specs.FaultTexts.{fault_text};
ghost use Rattle.office_core.specs.Descriptions.{Description};
ghost use Rattle.office_core.specs.Policies.{PolicyValue};
ghost use Rattle.office_core.specs.Days.{IsDay};
ghost use Rattle.office_core.specs.Rules.{HasNoDays};
ghost use Rattle.office_core.specs.FirstOf.{first_some};
ghost use Rattle.office_core.specs.RetentionReading.{due_of};
ghost use Rattle.office_core.specs.Verdicts.{verdict_of};
ghost use Rattle.office_core.specs.declared.action.Action.{Action};
ghost use Rattle.office_core.specs.declared.action.Action.TheVariants as acts;
ghost use Rattle.office_core.specs.declared.answer.Answer.{Answer};
ghost use Rattle.office_core.specs.declared.answer.Answer.TheVariants as answers;
ghost use Rattle.office_core.specs.declared.answer.AuditReport.{AuditReport};
ghost use Rattle.office_core.specs.declared.answer.LiveHold.{LiveHold};
ghost use Rattle.office_core.specs.declared.refusal.Refusal.{Refusal};
ghost use Rattle.office_core.specs.declared.refusal.Refusal.TheVariants.{Held};
ghost use Rattle.office_core.specs.declared.request.Request.{Request};
ghost use Rattle.office_core.specs.declared.request.Request.TheVariants.{DefineClass, Deposit as MakeDeposit, DownloadBag, DownloadFile, Audit, Holds, HoldCollection, HoldClass, Release, Dispose};
ghost use Rattle.office_history.specs.Bags.{bag_of};
ghost use Rattle.office_history.specs.Histories.{History, Change, Installed, DefinedClass, PlacedHold, ReleasedHold, Destroyed, Deposit, Hold, OnCollection, OnClass, with_changes, policy, years_of, has_class, has_collection, deposit_numbered, destruction_day, holds, hold_numbered, release_day, covers, live_holds, due};
ghost use Rattle.office_history.specs.Refusals.{denial, denial_at, asked_refusals, facts_of, refusal, refusal_of};
ghost use Rattle.office_history.specs.Answers.{answer, audit_report, due_list, change, after, OnlyReads};
ghost use Rattle.office_history.specs.Pictures.{due_row, due_rows, picture};
ghost use Rattle.office_history.specs.RowRanges.{AreInRange};
ghost use Rattle.office_history.specs.Stocks.{stock, contents, IsKept};
ghost use Rattle.office_history.specs.Acceptance.{IsChange, IsAllowed, IsThere, IsReleasable, IsDisposable};
ghost use Rattle.office_history.specs.Runs.{Item, AreItems, Step, Run, IsLater, IsLegal, IsSound, IsWithin, as_of};

/// The bag of a text is the valid bag whose transfer form it is. Where there is none, the fault is
/// the text's first, or that of the bag.
pub fn deposited_bags()
    ensures valid { (text : List ℕ) (bag : List File)
        → (bag_of text ≡ Ok bag) ↔ (IsSound bag × (text ≡ set_text bag)) }
    ensures unreadable { (text : List ℕ) (fault : SetFault)
        → FaultIs text fault → bag_of text ≡ Err (set_fault_text fault) }
    ensures invalid { (bag : List File) (fault : Fault)
        → IsBag bag → FirstFault bag fault
        → bag_of (set_text bag) ≡ Err (fault_text fault) }
{
    bag_text::laws::transfer_forms();
    bag_check::laws::judged_bags();
}

/// In a legal history the bag of every deposit is valid.
pub fn sound_bags()
    ensures { (h : History) → IsLegal h → (n : ℕ) (found : Date × Deposit)
        → deposit_numbered h n ≡ Some found → IsSound found.1.bag }
{
    bag_text::laws::transfer_forms();
    bag_check::laws::judged_bags();
}

/// Each change of a legal history is in range, and the history before it allowed it: so each
/// release is of a hold that was there and live.
pub fn changes_stand()
    ensures changes { (h : History) → IsLegal h → (before rest : List Change) (change : Change)
        → h.changes ≡ before ++ change ∷ rest
        → IsChange change × IsAllowed (as_of h before) change }
    ensures releases { (h : History) → IsLegal h
        → (before rest : List Change) (day : Date) (k : ℕ)
        → h.changes ≡ before ++ ReleasedHold day k ∷ rest
        → IsReleasable (as_of h before) k }
{}

/// A legal history has no disposal of a deposit that a live hold covered then, or that was not due yet.
pub fn disposals_stand()
    ensures { (h : History) → IsLegal h → (before rest : List Change) (day : Date) (n : ℕ)
        → h.changes ≡ before ++ Destroyed day n ∷ rest
        → IsDisposable (as_of h before) day n }
{}

/// In a legal history the limits are from 1 to 1,000,000, and no more deposits and holds were
/// accepted than they say.
pub fn limits_hold()
    ensures { (h : History) → IsLegal h → IsWithin h }
{}

/// In a legal history the collection and the class of each deposit are there, and so is what each
/// hold names.
pub fn what_is_named_is_there()
    ensures deposits { (h : History) → IsLegal h → (n : ℕ) (found : Date × Deposit)
        → deposit_numbered h n ≡ Some found
        → (has_collection h found.1.description.collection ≡ true)
        × (has_class h found.1.description.class ≡ true) }
    ensures holds { (h : History) → IsLegal h → (k : ℕ) (found : Date × Hold)
        → hold_numbered h k ≡ Some found → IsThere h found.1.target }
{}

/// In a legal history the records of each deposit were closed at or before the day of the deposit.
pub fn closed_by_the_day_of_deposit()
    ensures { (h : History) → IsLegal h → (n : ℕ) (found : Date × Deposit)
        → deposit_numbered h n ≡ Some found
        → epoch_day found.1.description.closed ≤ℤ epoch_day found.0 }
{}

/// What is asked of a deposit that is there is decided by the verdict of `office_core` on what is
/// known of it: the row of refusals and the verdict refuse the same.
pub fn verdicts_decide()
    ensures asked { (h : History) (day : Date) (caller : List ℕ)
        (action : Action) (n : ℕ) (deposit : Deposit)
        → first_some (asked_refusals h day caller action n deposit)
        ≡ refusal_of (verdict_of (facts_of h day caller action n deposit) day) }
    ensures disposal { (h : History) (day : Date) (caller : List ℕ) (n : ℕ) (found : Date × Deposit)
        → deposit_numbered h n ≡ Some found
        → refusal h day caller (Dispose n)
        ≡ refusal_of (verdict_of (facts_of h day caller acts.Dispose n found.1) day) }
{}

/// A refusal changes nothing, whether the office gives it, or memory or the store.
pub fn refused_changes_nothing()
    ensures change { (h : History) (day : Date) (caller : List ℕ)
        (request : Request) (why : Refusal)
        → refusal h day caller request ≡ Some why → change h day caller request ≡ [] }
    ensures answered { (h next : History) (item : Item) (why : Refusal)
        → Step h item (answers.Refused why) next → next ≡ h }
{}

/// Runs only add changes, and an install of a policy adds itself: what they lead to is later, and
/// what is later than that is later too.
pub fn runs_only_add()
    ensures runs { (h next : History) (items : List Item) (given : List Answer)
        → Run h items given next → IsLater h next }
    ensures installs { (h : History) (policy : PolicyValue)
        → IsLater h (with_changes h (Installed policy ∷ [])) }
    ensures further { (h mid next : History)
        → IsLater h mid → IsLater mid next → IsLater h next }
{}

/// A run of items in range from a legal history ends in a legal one.
pub fn runs_stay_legal()
    ensures { (h next : History) (items : List Item) (given : List Answer)
        → AreItems items → IsLegal h → Run h items given next → IsLegal next }
{}

/// After a bag was accepted as a deposit, each download of the deposit that is served is that bag,
/// byte for byte: in a run of requests, and in any later history.
pub fn downloaded_as_deposited()
    ensures ran { (h mid late next : History) (items : List Item) (given : List Answer)
        (day later : Date) (n : ℕ) (bytes : List ℕ) (caller other : Bor (List ℕ))
        (description : Description) (bag : Bor (List ℕ))
        → Step h (day, caller, MakeDeposit description bag)
        (answers.Deposited n) mid
        → Run mid items given late
        → Step late (later, other, DownloadBag n) (answers.Bag bytes) next
        → bytes ≡ bag.now }
    ensures answered { (h next : History) (day later : Date) (n : ℕ) (bytes : List ℕ)
        (caller other : List ℕ) (description : Description) (bag : Bor (List ℕ))
        → answer h day caller (MakeDeposit description bag)
        ≡ answers.Deposited n
        → IsLater (after h day caller (MakeDeposit description bag)) next
        → answer next later other (DownloadBag n) ≡ answers.Bag bytes
        → bytes ≡ bag.now }
{
    bag_text::laws::transfer_forms();
}

/// After a bag was accepted as a deposit, each file of the deposit that is served is the content at
/// that path of the bag whose form was deposited: in a run of requests, and in any later history.
pub fn files_are_downloaded_as_deposited()
    ensures ran { (h mid late next : History) (items : List Item) (given : List Answer)
        (day later : Date) (n : ℕ) (bytes : List ℕ) (caller other : Bor (List ℕ))
        (description : Description) (bag path : Bor (List ℕ))
        → Step h (day, caller, MakeDeposit description bag)
        (answers.Deposited n) mid
        → Run mid items given late
        → Step late (later, other, DownloadFile n path) (answers.File bytes) next
        → (files : List File) × IsBag files × (bag.now ≡ set_text files)
        × (content_at files path.now ≡ Some bytes) }
    ensures answered { (h next : History) (day later : Date) (n : ℕ) (bytes : List ℕ)
        (caller other : List ℕ) (description : Description) (bag path : Bor (List ℕ))
        → answer h day caller (MakeDeposit description bag)
        ≡ answers.Deposited n
        → IsLater (after h day caller (MakeDeposit description bag)) next
        → answer next later other (DownloadFile n path) ≡ answers.File bytes
        → (files : List File) × IsBag files × (bag.now ≡ set_text files)
        × (content_at files path.now ≡ Some bytes) }
{
    bag_text::laws::transfer_forms();
}

/// The due list has exactly the deposits whose disposal, asked by that caller on that day, would be
/// answered as destroyed.
pub fn due_lists_are_disposals()
    ensures { (h : History) (day : Date) (caller : List ℕ) (n : ℕ)
        → Contains (due_list h day caller) n
        ↔ (answer h day caller (Dispose n) ≡ answers.Destroyed n day) }
{}

/// The due list has exactly the deposits that are kept, that no live hold covers, that have fallen
/// due by that day, and that the rules let the caller dispose of.
pub fn what_may_be_destroyed_is_on_the_due_list()
    ensures listed { (h : History) (day : Date) (caller : List ℕ) (n : ℕ)
        (may : IsDisposable h day n)
        → denial_at h day caller acts.Dispose may.found.1 ≡ None
        → Contains (due_list h day caller) n }
    ensures only { (h : History) (day : Date) (caller : List ℕ) (n : ℕ)
        → Contains (due_list h day caller) n
        → (may : IsDisposable h day n)
        × (denial_at h day caller acts.Dispose may.found.1 ≡ None) }
{}

/// In a legal history each audit that is answered is of the deposit that was asked for, and says
/// that its bag is valid, of its version, with the counts of what the bag has.
pub fn audits_are_valid()
    ensures { (h : History) → IsLegal h → (day : Date) (caller : List ℕ)
        (n m : ℕ) (report : AuditReport)
        → answer h day caller (Audit n) ≡ answers.Audit m report
        → (m ≡ n) × ((found : Date × Deposit) × (deposit_numbered h n ≡ Some found)
        × (sound : IsSound found.1.bag)
        × (report ≡ audit_report (Ok (report_of sound.version found.1.bag)))) }
{
    bag_text::laws::transfer_forms();
    bag_check::laws::judged_bags();
}

/// The contents that are stored are exactly those of the files of kept deposits, each once.
pub fn contents_are_stored_once()
    ensures exactly { (h : History) (content : List ℕ)
        → Contains (contents h) content ↔ IsKept h content }
    ensures once { (h : History) → IsDistinct bytes_eq (contents h) }
{}

/// The rows that a legal history gives are in their ranges: one row of the office, of that version;
/// effects 0 and 1; names, accessions and matters; years from -1 to 200; numbers of days, due days
/// up to 9999-12-31; counts of live holds up to the limit; one target a hold; what a row speaks of
/// is there; places and numbers 1, 2, 3 and so on.
pub fn pictures_are_in_range()
    ensures { (h : History) (version : ℤ)
        → IsLegal h → AreInRange version (picture version h) }
{
    bag_text::laws::transfer_forms();
    bag_check::laws::judged_bags();
}

/// A hold of a collection covers the deposits of the collection, those that come later too.
pub fn later_deposits_are_covered()
    ensures answered { (h next : History) (k n : ℕ) (day : Date)
        (caller name matter : List ℕ) (found : Date × Deposit)
        → answer h day caller (HoldCollection name matter) ≡ answers.HoldPlaced k
        → IsLater (after h day caller (HoldCollection name matter)) next
        → deposit_numbered next n ≡ Some found → found.1.description.collection ≡ name
        → covers next k n found.1 ≡ true }
    ensures held { (h next : History) (k n : ℕ) (day : Date)
        (name matter : List ℕ) (found : Date × Deposit)
        → hold_numbered h k ≡ Some (day, record { target = OnCollection name; matter = matter })
        → IsLater h next
        → deposit_numbered next n ≡ Some found → found.1.description.collection ≡ name
        → covers next k n found.1 ≡ true }
{}

/// A hold of a class covers the deposits of the class, those that come later too, and is one of the
/// live holds of each until it is released.
pub fn later_deposits_of_a_class_are_covered()
    ensures answered { (h next : History) (k n : ℕ) (day : Date)
        (caller name matter : List ℕ) (found : Date × Deposit)
        → answer h day caller (HoldClass name matter) ≡ answers.HoldPlaced k
        → IsLater (after h day caller (HoldClass name matter)) next
        → deposit_numbered next n ≡ Some found → found.1.description.class ≡ name
        → covers next k n found.1 ≡ true }
    ensures held { (h next : History) (k n : ℕ) (day : Date)
        (name matter : List ℕ) (found : Date × Deposit)
        → hold_numbered h k ≡ Some (day, record { target = OnClass name; matter = matter })
        → IsLater h next
        → deposit_numbered next n ≡ Some found → found.1.description.class ≡ name
        → covers next k n found.1 ≡ true }
    ensures live { (h next : History) (k n : ℕ) (day : Date)
        (name matter : List ℕ) (found : Date × Deposit)
        → hold_numbered h k ≡ Some (day, record { target = OnClass name; matter = matter })
        → IsLater h next → release_day next k ≡ None
        → deposit_numbered next n ≡ Some found → found.1.description.class ≡ name
        → Contains (live_holds next n found.1) k }
{}

/// A live hold of a deposit's collection and one of its class are two: each is counted.
pub fn a_hold_of_the_collection_and_one_of_the_class_are_two()
    ensures { (h : History) (j k n : ℕ) (day later : Date)
        (matter other : List ℕ) (found : Date × Deposit)
        → hold_numbered h j
        ≡ Some (
          day,
          record { target = OnCollection found.1.description.collection; matter = matter },
        )
        → hold_numbered h k
        ≡ Some (later, record { target = OnClass found.1.description.class; matter = other })
        → release_day h j ≡ None → release_day h k ≡ None
        → pos 2 ≤ℤ (due_row h n found).holds }
{}

/// A disposal that is refused for a hold names the least live hold that covers the deposit, whether
/// it is of the deposit, of its collection or of its class. And where one covers a kept deposit that
/// the rules let the caller dispose of, the disposal is refused so.
pub fn the_least_live_hold_is_named()
    ensures named { (h : History) (day : Date) (caller : List ℕ)
        (n k : ℕ) (found : Date × Deposit)
        → deposit_numbered h n ≡ Some found
        → refusal h day caller (Dispose n) ≡ Some (Held k)
        → (release_day h k ≡ None) × (covers h k n found.1 ≡ true)
        × ((other : ℕ) → release_day h other ≡ None
        → covers h other n found.1 ≡ true → k ≤ other) }
    ensures refused { (h : History) (day : Date) (caller : List ℕ)
        (n k : ℕ) (found : Date × Deposit)
        → deposit_numbered h n ≡ Some found → destruction_day h n ≡ None
        → denial_at h day caller acts.Dispose found.1 ≡ None
        → release_day h k ≡ None → covers h k n found.1 ≡ true
        → (least : ℕ) × (refusal h day caller (Dispose n) ≡ Some (Held least)) × (least ≤ k) }
{}

/// A hold whose release was answered is released, then and later. A hold that was released is none
/// of the live ones, is in no list of holds that is answered, and refuses no disposal.
pub fn released_holds_are_not_live()
    ensures answered { (h next : History) (k number : ℕ) (day on : Date) (caller : List ℕ)
        → answer h day caller (Release k) ≡ answers.HoldReleased number on
        → IsLater (after h day caller (Release k)) next
        → release_day next k ≡ Some day }
    ensures listed { (h next : History) (k n at : ℕ) (day : Date) (deposit : Deposit)
        → release_day h k ≡ Some day → IsLater h next
        → slice_get (live_holds next n deposit) at ≢ Some k }
    ensures told { (h next : History) (k n at : ℕ) (day later : Date) (caller : List ℕ)
        (given : List LiveHold) (hold : LiveHold)
        → release_day h k ≡ Some day → IsLater h next
        → answer next later caller (Holds n) ≡ answers.Holds given
        → slice_get given at ≡ Some hold → hold.number ≢ k }
    ensures refuses { (h next : History) (k n : ℕ) (day later : Date) (caller : List ℕ)
        → release_day h k ≡ Some day → IsLater h next
        → refusal next later caller (Dispose n) ≢ Some (Held k) }
{}

/// A class that is revised gives its deposits the due day of their closing day and the new years,
/// whatever the years were before: so due days come earlier or later.
pub fn revised_classes_move_due_days()
    ensures { (h : History) (day : Date) (caller name given_name : List ℕ)
        (years given_years : Option ℕ) (deposit : Deposit)
        → answer h day caller (DefineClass name years) ≡ answers.Class given_name given_years
        → deposit.description.class ≡ name
        → due (after h day caller (DefineClass name years)) deposit
        ≡ due_of deposit.description.closed years }
{}

/// A class that is given other years, and then the years that it had, leaves the due day of each
/// deposit as it was, and so its due row.
pub fn a_class_that_gets_its_old_years_back_has_its_old_due_days()
    ensures days { (h : History) (day later : Date) (name : List ℕ) (other years : Option ℕ)
        → years_of h name ≡ Some years → (deposit : Deposit)
        → due (with_changes h (DefinedClass day name other ∷ DefinedClass later name years ∷ []))
        deposit ≡ due h deposit }
    ensures rows { (h : History) (day later : Date) (name : List ℕ) (other years : Option ℕ)
        → years_of h name ≡ Some years
        → due_rows (with_changes h
        (DefinedClass day name other ∷ DefinedClass later name years ∷ []))
        ≡ due_rows h }
{}

/// A hold that is placed, whatever it names, and then released leaves the live holds of each deposit
/// as they were, and so its due row, with their count.
pub fn a_hold_and_its_release_leave_the_counts()
    ensures holds { (h : History) (day later : Date) (hold : Hold) (n : ℕ) (deposit : Deposit)
        → live_holds (with_changes h
        (PlacedHold day hold ∷ ReleasedHold later (length (holds h) + 1) ∷ [])) n deposit
        ≡ live_holds h n deposit }
    ensures rows { (h : History) (day later : Date) (hold : Hold)
        → due_rows (with_changes h
        (PlacedHold day hold ∷ ReleasedHold later (length (holds h) + 1) ∷ []))
        ≡ due_rows h }
{}

/// Where no rule of the policy has days, the rules deny a caller the same on every day of the office,
/// and a request that only reads is answered alike.
pub fn a_policy_without_days_answers_alike()
    ensures denied { (h : History) (day other : Date)
        → AllByRecursion HasNoDays (policy h).rules → IsDay day → IsDay other
        → (caller : List ℕ) (action : Action) (collection class : Option (List ℕ))
        → denial h day caller action collection class
        ≡ denial h other caller action collection class }
    ensures answered { (h : History) (day other : Date)
        → AllByRecursion HasNoDays (policy h).rules → IsDay day → IsDay other
        → (caller : List ℕ) (request : Request) → OnlyReads request
        → answer h day caller request ≡ answer h other caller request }
{
    office_core::laws::rules_without_days();
}

/// No number is given to two deposits, also where the first was destroyed in between, and none to
/// two holds.
pub fn numbers_are_given_once()
    ensures deposits { (h next : History) (day later : Date) (n m : ℕ)
        (caller other : List ℕ) (description description_2 : Description) (bag bag_2 : Bor (List ℕ))
        → answer h day caller (MakeDeposit description bag)
        ≡ answers.Deposited n
        → IsLater (after h day caller (MakeDeposit description bag)) next
        → answer next later other (MakeDeposit description_2 bag_2)
        ≡ answers.Deposited m
        → n < m }
    ensures holds { (h next : History) (day later : Date) (n m : ℕ)
        (caller other : List ℕ) (request request_2 : Request)
        → answer h day caller request ≡ answers.HoldPlaced n
        → IsLater (after h day caller request) next
        → answer next later other request_2 ≡ answers.HoldPlaced m
        → n < m }
{}

/// In a legal history an accession is used once.
pub fn accessions_are_used_once()
    ensures { (h : History) → IsLegal h → (n m : ℕ) (a b : Date × Deposit)
        → deposit_numbered h n ≡ Some a → deposit_numbered h m ≡ Some b
        → a.1.description.accession ≡ b.1.description.accession → n ≡ m }
{}

/// Two legal histories that give the same rows answer each request alike, have the same stock, and
/// give the same rows after each request and after each install.
pub fn one_picture()
    ensures answers { (h k : History) (version : ℤ)
        → IsLegal h → IsLegal k → picture version h ≡ picture version k
        → (day : Date) (caller : List ℕ) (request : Request)
        → answer h day caller request ≡ answer k day caller request }
    ensures pictures { (h k : History) (version : ℤ)
        → IsLegal h → IsLegal k → picture version h ≡ picture version k
        → (day : Date) (caller : List ℕ) (request : Request)
        → picture version (after h day caller request)
        ≡ picture version (after k day caller request) }
    ensures installs { (h k : History) (version : ℤ)
        → IsLegal h → IsLegal k → picture version h ≡ picture version k
        → (policy : PolicyValue)
        → picture version (with_changes h (Installed policy ∷ []))
        ≡ picture version (with_changes k (Installed policy ∷ [])) }
    ensures stocks { (h k : History) (version : ℤ)
        → IsLegal h → IsLegal k → picture version h ≡ picture version k
        → stock h ≡ stock k }
{}
