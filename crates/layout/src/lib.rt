// Where the columns of the state table and of the plan begin: definitions in specs/.

#![tactic(auto)]
