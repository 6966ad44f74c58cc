// The three demands, of tables that public calls leave: see specs/.

#![tactic(auto)]
