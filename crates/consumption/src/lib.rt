// What the hours of a recording are: a total that stands for consumption. Everything here is a statement: see specs/.
#![tactic(auto)]
