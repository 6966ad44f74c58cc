// The public calls (section 8.3; document 01), the numbers of their answers, and their laws: see specs/.

#![tactic(auto)]
