//! Laws of the definitions alone.

ghost use Rattle.std.specs.Prelude.{◌≡◌, ◌≢◌, ◌≤◌, ◌<◌, ◌^◌, ◌⊎◌, ◌↔◌, List, [], ◌∷◌, ℕ, length, map, codes, decimal, true};
ghost use Rattle.std.specs.Cmp.Lexicographic.{slice_cmp};
ghost use Rattle.std.specs.List.Sorted.{IsStrictlySortedBy};
ghost use Rattle.std.specs.Ordering.{nat_cmp};
ghost use Rattle.httparse.specs.Grammar.{ResponseHead, ReadsResponse};
ghost use Rattle.office_core.specs.declared.answer.Answer.{Answer};
ghost use Rattle.office_core.specs.declared.answer.Answer.TheVariants.{Refused};
ghost use Rattle.office_core.specs.declared.refusal.Refusal.{Refusal};
ghost use Rattle.desk_routes.specs.Table.{method_text, methods_of};
ghost use Rattle.desk_routes.specs.declared.resource.PathPattern.{PathPattern};
ghost use Rattle.desk_routes.specs.declared.refusal.DeskRefusal.{DeskRefusal};
ghost use Rattle.desk_routes.specs.declared.refusal.DeskRefusal.TheVariants.{Method as WrongMethod};
ghost use Rattle.desk_answers.specs.Statuses.{code_of};
ghost use Rattle.desk_answers.specs.Responses.{json, body_of};
ghost use Rattle.desk_answers.specs.Bodies.{status_of, content_of};
ghost use Rattle.desk_answers.specs.DeskRefusals.{desk_status, desk_data, methods_text, allow_fields};
ghost use Rattle.desk_answers.specs.Answers.{answer_text, refusal_text};
ghost use Rattle.desk_answers.specs.Keys.{has_ascending_keys, content_has_ascending_keys};
ghost use Rattle.desk_answers.specs.Messages.{IsResponse, named_value, response_fields, values_of};

/// The bytes of each answer, and of each refusal of the desk, are a response of HTTP/1.1 as its
/// grammar reads them: the status, the fields `Content-Type`, `Content-Length`, `Allow` where the
/// method was wrong, and `Connection`, an empty line, and the body.
pub fn responses()
    ensures answers { (answer : Answer) → length (body_of (content_of answer)) < 2 ^ 64
        → IsResponse (answer_text answer) (status_of answer)
        (response_fields [] (content_of answer)) (body_of (content_of answer)) }
    ensures refusals { (refusal : DeskRefusal) → IsResponse (refusal_text refusal)
        (desk_status refusal) (response_fields (allow_fields refusal) (json (desk_data refusal)))
        (body_of (json (desk_data refusal))) }
{}

/// However the bytes are read as a response, they have one `Content-Length`, and it is the length of
/// what follows the head, in decimal.
pub fn content_lengths()
    ensures answers { (answer : Answer) → length (body_of (content_of answer)) < 2 ^ 64
        → (head : ResponseHead) (rest : List ℕ) → ReadsResponse (answer_text answer) head rest
        → values_of (codes "content-length") (map named_value head.fields)
        ≡ decimal (length rest) ∷ [] }
    ensures refusals { (refusal : DeskRefusal) (head : ResponseHead) (rest : List ℕ)
        → ReadsResponse (refusal_text refusal) head rest
        → values_of (codes "content-length") (map named_value head.fields)
        ≡ decimal (length rest) ∷ [] }
{}

/// What is refused has a status of 400 or more, and what is accepted 200 or 201.
pub fn statuses()
    ensures refused { (refusal : Refusal) → 400 ≤ code_of (status_of (Refused refusal)) }
    ensures accepted { (answer : Answer) → ((refusal : Refusal) → answer ≢ Refused refusal)
        → (code_of (status_of answer) ≡ 200) ⊎ (code_of (status_of answer) ≡ 201) }
    ensures of_the_desk { (refusal : DeskRefusal) → 400 ≤ code_of (desk_status refusal) }
{}

/// There is an `Allow` where the status is 405, and nowhere else. It names the methods of the target, in
/// the order of the alphabet.
pub fn allowed_methods()
    ensures present { (refusal : DeskRefusal)
        → (allow_fields refusal ≢ []) ↔ (code_of (desk_status refusal) ≡ 405) }
    ensures not_of_the_office { (answer : Answer) → code_of (status_of answer) ≢ 405 }
    ensures names { (pattern : PathPattern) → allow_fields (WrongMethod pattern)
        ≡ (codes "Allow", methods_text (methods_of pattern)) ∷ [] }
    ensures in_order { (pattern : PathPattern)
        → IsStrictlySortedBy (slice_cmp nat_cmp) (map method_text (methods_of pattern)) }
{}

/// The keys of each object in a body ascend, so no key occurs in it twice.
pub fn ascending_keys()
    ensures answers { (answer : Answer)
        → content_has_ascending_keys (content_of answer) ≡ true }
    ensures refusals { (refusal : DeskRefusal) → has_ascending_keys (desk_data refusal) ≡ true }
{}
