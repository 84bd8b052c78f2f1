//! Laws about the explanations. Each function exists for its contract alone: a caller has the law
//! as a fact.

ghost use Rattle.mk_explain.specs.Laws.{EachFaultIsExplained, EachFindingIsExplained, EachNameLeadsToItsNumber, EachTermIsExplained, KnownIsExplained};

/// The number of each fault and its name lead to the same explanation.
pub fn each_name_leads_to_its_number()
    ensures { EachNameLeadsToItsNumber }
{}

/// Each fault has a sentence and a text.
pub fn each_fault_is_explained()
    ensures { EachFaultIsExplained }
{}

/// Each finding has a sentence and a text.
#[tactic(auto, unfolding(crate::specs::Texts::finding_text))]
pub fn each_finding_is_explained()
    ensures { EachFindingIsExplained }
{}

/// Each of the other words that answers begin with is explained by its own text.
pub fn each_term_is_explained()
    ensures { EachTermIsExplained }
{}

/// The first words of findings, the names and numbers of faults, and the other words that answers
/// begin with are explained, and nothing else.
pub fn known_is_explained()
    ensures { KnownIsExplained }
{}
