// What the cells of the plan say of the structure of a guideline, and the law that this is what the engine asks: see specs/.

#![tactic(auto)]
