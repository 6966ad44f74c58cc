// Definitions of sections 2 and 3.3 (bytes to tokens and terminals) and their laws: see specs/.

#![tactic(auto)]
