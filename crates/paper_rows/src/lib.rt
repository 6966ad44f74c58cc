// The Properties table, the guideline that is kept, and the rows of load (sections 7, 8.1, 8.2, 10, 12), and their laws: see specs/.

#![tactic(auto)]
