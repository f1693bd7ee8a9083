// Theorems about the yard and yards with one damage each.
#![tactic(auto)]

ghost use Rattle.yards.specs.Judged.{YardsJudged};

// The yard is accepted, and of each damaged yard just the rule that it breaks and the things that break it are named.
pub fn yards_judged()
    ensures { YardsJudged }
{}
