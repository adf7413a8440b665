// Plans with a name, and what is shown of them by computation.
#![tactic(auto)]

ghost use Rattle.named.specs.Named.{NamedPlans};
ghost use Rattle.named.specs.Evidence.{EvidenceExists, HistoryExists};

// The listings of the named plans.
pub fn plans_listed()
    ensures { NamedPlans }
{}

// Evidence for the sample plan that is drawn up by the rules, and a history of a table of it.
pub fn sample_kept()
    ensures evidence { EvidenceExists }
    ensures history { HistoryExists }
{}
