// The rows of a guideline with what the rows before them count, from the structure and back: see specs/.

#![tactic(auto)]
