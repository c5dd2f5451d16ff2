//! Laws of what is answered.

ghost use Rattle.std.specs.Prelude.{◌≡◌, List, Ok};
ghost use Rattle.bag_text.specs.BagList.{ListFault};
ghost use Rattle.bag_text.specs.FaultTexts.{set_fault_text};
ghost use Rattle.bag_text.specs.TransferForm.{File, IsBag};
ghost use Rattle.bag_text.specs.declared.declaration.Version.{Version};
ghost use Rattle.bag_text.specs.declared.set_fault.SetFault.{SetFault};
ghost use Rattle.bag_check.specs.Faults.{Fault, FirstFault};
ghost use Rattle.bag_check.specs.FaultTexts.{fault_text};
ghost use Rattle.bag_check.specs.Validity.{Valid, report_of};
ghost use Rattle.office_core.specs.declared.answer.AuditReport.TheVariants.{Invalid};
ghost use Rattle.office_history.specs.Answers.{audit_report};
ghost use Rattle.office_by_rows.specs.Answers.{audit_of};

use bag_check::laws::judged_bags;
use bag_text::laws::one_list_fault;

/// The audit of a list of files is the report of a check where the list is a valid bag. Else it is
/// the text of the first fault of the list where it is no bag, and of the bag where it is one.
pub fn audits_of_files()
    ensures valid { (files : List File) (version : Version)
        → IsBag files → Valid files version
        → audit_of files ≡ audit_report (Ok (report_of version files)) }
    ensures no_bag { (files : List File) (fault : SetFault)
        → ListFault files fault → audit_of files ≡ Invalid (set_fault_text fault) }
    ensures invalid { (files : List File) (fault : Fault)
        → IsBag files → FirstFault files fault → audit_of files ≡ Invalid (fault_text fault) }
{
    one_list_fault();
    judged_bags();
}
