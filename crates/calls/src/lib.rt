//! What each call of an index answers and leaves: the definitions that the contracts of all calls read, and the laws
//! that join them. Each function answers true; its contract names the laws.
#![tactic(auto)]

ghost use Rattle.std.specs.Prelude.{◌≡◌, true};
ghost use Rattle.calls.specs.CallLaws.{JudgedThenTakenIsMerged, StandingLeadsThroughAnyCalls, AMadeIndexStands, OpeningFindsWhatStood, LookupsShowTheCounted};
ghost use Rattle.calls.specs.Runs.{StandingIsCarriedOn};
ghost use Rattle.calls.specs.Worked.{WorkedExamples};

pub mod answers;

/// Small batches, merged and looked up as the definitions say.
pub fn worked_examples_hold() -> bool
    ensures is_true { result ≡ true }
    ensures worked_examples { WorkedExamples }
{
    let worked_examples = true;
    worked_examples
}

/// What stands of an index for its accepted batches, from a make on and through any list of calls.
pub fn standing_is_carried_on() -> bool
    ensures is_true { result ≡ true }
    ensures a_made_index_stands { AMadeIndexStands }
    ensures each_call_carries_on { StandingIsCarriedOn }
    ensures any_list_of_calls_carries_on { StandingLeadsThroughAnyCalls }
    ensures opening_finds_what_stood { OpeningFindsWhatStood }
{
    let standing = true;
    standing
}

/// The call that judges a batch and the one that takes it, together, are a merge.
pub fn judged_then_taken_is_merged() -> bool
    ensures is_true { result ≡ true }
    ensures judged_then_taken_is_merged { JudgedThenTakenIsMerged }
{
    let judged_then_taken = true;
    judged_then_taken
}

/// A lookup shows exactly what was posted once more than cancelled.
pub fn lookups_show_what_was_counted() -> bool
    ensures is_true { result ≡ true }
    ensures lookups_show_the_counted { LookupsShowTheCounted }
{
    let counted = true;
    counted
}
