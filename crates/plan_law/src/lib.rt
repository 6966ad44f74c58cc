// The law that the plan which load works out of the rows says the structure of the guideline, and so tells what the engine asks: see specs/.

#![tactic(auto)]
