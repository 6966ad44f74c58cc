// Trees, structure, limits, names and refusals of a guideline (sections 3, 6; document 01) and their laws: see specs/.

#![tactic(auto)]
