// Document 01's marked cases as one proved table: theorems alone, in specs/.
#![tactic(auto)]
