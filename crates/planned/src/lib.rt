// What load works out of a guideline for the engine, and what it tells of every table that calls and cycles leave: see specs/.

#![tactic(auto)]
