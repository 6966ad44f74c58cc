// Worked guidelines, from their texts to the rows after every cycle: see specs/.

#![tactic(auto)]
