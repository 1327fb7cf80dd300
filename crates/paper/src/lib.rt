// What the paper calls an answer, and its numbers of refusal. Everything here is a definition: see specs/.
#![tactic(auto)]
