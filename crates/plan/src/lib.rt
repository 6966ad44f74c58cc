// What load works out of the rows of a guideline for the engine: the cells of the plan, and who waits for whom: see specs/.

#![tactic(auto)]
