// The words that the rules are written in: definitions and laws alone, in specs/.
#![tactic(auto)]
