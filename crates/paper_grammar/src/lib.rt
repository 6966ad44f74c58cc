// The productions of section 3.2, their sentences, and the laws that tie a deterministic form to them: see specs/.

#![tactic(auto)]
