// Worked lines of document 01, by computing what the definitions give for each: see specs/. No program needs them.

#![tactic(auto)]
