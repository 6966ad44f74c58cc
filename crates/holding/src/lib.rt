// When the lent tables hold the state of a guideline, and what they then show to the evaluator and to the review: see specs/.

#![tactic(auto)]
