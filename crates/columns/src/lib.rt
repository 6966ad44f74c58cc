// What the columns of tokens stand for: the definition and its law are in specs/.

#![tactic(auto)]
