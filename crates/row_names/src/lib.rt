// The rules on names over the rows of a guideline, one row at a time, and the law that ties them to section 6 and document 01: see specs/.

#![tactic(auto)]
