// What load leaves holds the published state: see specs/.

#![tactic(auto)]
